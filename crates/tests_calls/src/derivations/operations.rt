// Operations on constraints, by hand from the rules of cutting planes.
ghost use Rattle.std.specs.Prelude.{◌<◌, IfSome};
ghost use Rattle.pb_steps.specs.Operations.{IsNarrow};

use crate::cases::{assert_found, assert_page};
use crate::samples::{linear, linear_text, lits};
use pb_norm::Linear;
use pb_operations::{
    axiom, division, implies, multiple, names_set, negation, plus, restriction, saturation,
    weakening,
};
use pb_steps::Set;
use std::alloc::Global;

// A constraint that may have no room.
fn made_text(alloc: Global, made: Option<Linear>) -> Option<String> {
    match made {
        Some(made) => linear_text(alloc, &made),
        None => "no room".to_string(alloc).ok(),
    }
}

// The constraint of a text, if its numbers have room.
fn narrow(alloc: Global, text: &str) -> Option<Linear>
    ensures { IfSome result IsNarrow }
{
    let constraint = linear(alloc, text)?;
    if constraint.weight() >= 1 << 126 || constraint.degree() >= 1 << 126 {
        return None;
    }
    Some(constraint)
}

// The sum of the two constraints around `plus`.
fn sum(alloc: Global, text: &str) -> Option<String> {
    let (left, right) = text.split_once(" plus ")?;
    let left = narrow(alloc, left)?;
    made_text(alloc, plus(alloc, &left, &narrow(alloc, right)?).ok()?)
}

const SUMS: &str = "\
3 x1 2 x2 >= 3 ; plus 1 ~x1 1 x3 >= 1 ; => 2 x1 2 x2 1 x3 >= 3
1 x1 1 x2 >= 1 ; plus 1 ~x1 1 x2 >= 1 ; => 2 x2 >= 1";

// A multiple by a factor from 1 on.
fn scaled(alloc: Global, text: &str, factor: u128) -> Option<String>
    requires { 0 < factor }
{
    made_text(alloc, multiple(alloc, &linear(alloc, text)?, factor).ok()?)
}

fn halved(alloc: Global, text: &str) -> Option<String> {
    linear_text(alloc, &division(alloc, &linear(alloc, text)?, 2).ok()?)
}

// Quotients are rounded up.
const HALVED: &str = "3 x1 2 x2 1 x3 >= 3 ; => 2 x1 1 x2 1 x3 >= 2";

fn saturated(alloc: Global, text: &str) -> Option<String> {
    linear_text(alloc, &saturation(alloc, &linear(alloc, text)?).ok()?)
}

// Coefficients are cut.
const SATURATED: &str = "5 x1 3 x2 1 x3 >= 3 ; => 3 x1 3 x2 1 x3 >= 3";

// Without the variables of the literals after `without`.
fn weakened(alloc: Global, text: &str) -> Option<String> {
    let (text, names) = text.split_once(" without ")?;
    let mut constraint = linear(alloc, text)?;
    for lit in lits(alloc, names)? {
        constraint = weakening(constraint, lit.var);
    }
    linear_text(alloc, &constraint)
}

const WEAKENED: &str = "5 x1 3 x2 1 x3 >= 4 ; without x2 => 5 x1 1 x3 >= 1";

fn negated(alloc: Global, text: &str) -> Option<String> {
    linear_text(alloc, &negation(alloc, &narrow(alloc, text)?).ok()?)
}

const NEGATED: &str = "3 x1 2 ~x2 >= 2 ; => 3 ~x1 2 x2 >= 4";

// That a literal is at least 0.
fn axiom_of(alloc: Global, name: &str) -> Option<String> {
    let lit = lits(alloc, name)?.first().copied()?;
    linear_text(alloc, &axiom(alloc, lit).ok()?)
}

const AXIOMS: &str = "\
x1 => 1 x1 >= 0
~x3 => 1 ~x3 >= 0";

// The substitution that makes literals true.
fn sets_of(alloc: Global, names: &str) -> Option<Vec<Set>> {
    let mut sets = Vec::new(alloc);
    for lit in lits(alloc, names)? {
        let set = Set {
            var: lit.var,
            value: lit.positive,
        };
        sets.push(set).ok()?;
    }
    Some(sets)
}

// `true` if a variable of a constraint is set, and what is left of it.
fn restricted_by(alloc: Global, constraint: &Linear, sets: &[Set]) -> Option<String> {
    let left = restriction(alloc, sets, constraint).ok()?;
    let line = linear_text(alloc, &left)?;
    format!(in alloc; "{} {line}", names_set(sets, constraint)).ok()
}

// The same of a text, where the literals after `under` are made true.
fn restricted(alloc: Global, text: &str) -> Option<String> {
    let (text, names) = text.split_once(" under ")?;
    let constraint = linear(alloc, text)?;
    let sets = sets_of(alloc, names)?;
    restricted_by(alloc, &constraint, &sets)
}

const RESTRICTED: &str = "\
3 x1 2 x2 1 x3 >= 4 ; under x1 => true 2 x2 1 x3 >= 1
3 x1 2 x2 1 x3 >= 4 ; under ~x1 => true 2 x2 1 x3 >= 4
3 x1 2 x2 1 x3 >= 4 ; under x4 => false 3 x1 2 x2 1 x3 >= 4";

// True if each of the two constraints around `implies` implies the other.
fn implied(alloc: Global, text: &str) -> Option<String> {
    let (one, other) = text.split_once(" implies ")?;
    let one = linear(alloc, one)?;
    let other = linear(alloc, other)?;
    format!(in alloc; "{} {}", implies(&one, &other), implies(&other, &one)).ok()
}

// Term by term.
const IMPLIED: &str = "2 x1 1 x2 >= 2 ; implies 1 x1 1 x2 >= 1 ; => true false";

#[test]
fn operations(rt: HostRuntime) {
    assert_page(&rt, sum, "\n", SUMS);
    assert_page(&rt, halved, "\n", HALVED);
    assert_page(&rt, saturated, "\n", SATURATED);
    assert_page(&rt, weakened, "\n", WEAKENED);
    assert_page(&rt, negated, "\n", NEGATED);
    assert_page(&rt, axiom_of, "\n", AXIOMS);
    assert_page(&rt, restricted, "\n", RESTRICTED);
    assert_page(&rt, implied, "\n", IMPLIED);
}

#[test]
fn multiples_have_room_or_none(rt: HostRuntime) {
    let made = scaled(rt.alloc(), "2 x1 1 ~x2 >= 2 ;", 3);
    assert_found(&rt, made, "6 x1 3 ~x2 >= 6", "3 times");
    let none = scaled(rt.alloc(), "1 x1 >= 1 ;", 1 << 126);
    assert_found(&rt, none, "no room", "2^126 times");
}
