ghost use Rattle.std.specs.Prelude.{◌≡◌, ◌≤◌, ◌<◌, ◌^◌, IsTrue, IfSome};
ghost use Rattle.pb_norm.specs.Constraints.{AreVarsWithin, HasVarsWithin, weights};

use crate::cases::assert_found;
use crate::samples::{lits, lits_text, loaded};
use pb_base::{Lit, Term, Var};
use pb_norm::Linear;
use pb_unit::{Engine, Outcome};
use std::alloc::Global;

// At most two of the variables 1 to 4, by a sequential counter with the variables 5 to 10.
const COUNTER: &str = "1 ~x1 1 x5 >= 1 ; 1 ~x6 >= 1 ; 1 ~x2 1 x7 >= 1 ; 1 ~x5 1 x7 >= 1 ;\n\
1 ~x2 1 ~x5 1 x8 >= 1 ; 1 ~x6 1 x8 >= 1 ; 1 ~x2 1 ~x6 >= 1 ; 1 ~x3 1 x9 >= 1 ;\n\
1 ~x7 1 x9 >= 1 ; 1 ~x3 1 ~x7 1 x10 >= 1 ; 1 ~x8 1 x10 >= 1 ; 1 ~x3 1 ~x8 >= 1 ;\n\
1 ~x4 1 ~x10 >= 1 ;";

const WEIGHTED: &str = "3 x1 2 x2 1 x3 >= 3 ;";

pub(crate) fn lit_at(index: u32, positive: bool) -> Lit
    requires low { 1 ≤ index }
    requires high { index < 2 ^ 31 }
    ensures { result.var ≡ index }
{
    let var = Var::new(index);
    Lit { var, positive }
}

pub(crate) fn is_within(terms: &[Term], vars: u32) -> bool
    ensures { IsTrue result → HasVarsWithin vars (weights terms.now) }
{
    for term in terms {
        if term.lit.index() > vars {
            return false;
        }
    }
    true
}

fn are_within(constraints: &[Linear], vars: u32) -> bool
    ensures { IsTrue result → AreVarsWithin vars constraints.now }
{
    for constraint in constraints {
        if !is_within(constraint.terms(), vars) {
            return false;
        }
    }
    true
}

// The constraints of a text, if all their variables are among so many.
pub(crate) fn constraints_of(alloc: Global, vars: u32, text: &str) -> Option<Vec<Linear>>
    ensures { IfSome result (λ constraints. AreVarsWithin vars constraints.items) }
{
    let constraints = loaded(alloc, text)?.into_vec();
    if are_within(&constraints, vars) {
        Some(constraints)
    } else {
        None
    }
}

// An engine over the constraints of a text, of so many variables.
pub(crate) fn engine_of(alloc: Global, vars: u32, text: &str) -> Option<Engine>
    ensures { IfSome result (λ engine. engine.vars ≡ vars) }
{
    Engine::new(alloc, vars, constraints_of(alloc, vars, text)?).ok()
}

// Assumes literals, as long as that can be.
fn assume_all(engine: &mut Engine, vars: u32, lits: &[Lit]) -> bool
    requires { engine.old.vars ≡ vars }
    ensures { engine.new.vars ≡ vars }
{
    for lit in lits {
        if lit.index() > vars || !engine.assume(*lit) {
            return false;
        }
    }
    true
}

// What says of each literal whether it holds.
pub(crate) trait Holds {
    fn has(&self, lit: Lit) -> bool;
}

impl Holds for Engine {
    fn has(&self, lit: Lit) -> bool {
        self.holds(lit)
    }
}

// Adds a variable's literal of a sign, if it holds.
fn push_held<H: Holds>(holds: &H, index: u32, positive: bool, held: &mut Vec<Lit>) -> Option<()>
    requires low { 1 ≤ index }
    requires high { index < 2 ^ 31 }
{
    if holds.has(lit_at(index, positive)) {
        held.push(lit_at(index, positive)).ok()?;
    }
    Some(())
}

// The literals that hold, by variable.
pub(crate) fn told<H: Holds>(alloc: Global, holds: &H, vars: u32) -> Option<String>
    requires { vars < 2 ^ 31 }
{
    let mut held = Vec::new(alloc);
    for index in 1..=vars {
        push_held(holds, index, true, &mut held)?;
        push_held(holds, index, false, &mut held)?;
    }
    lits_text(alloc, &held)
}

// What propagation reaches, or that there is a conflict.
pub(crate) fn propagated(alloc: Global, engine: &mut Engine, vars: u32) -> Option<String>
    requires small { vars < 2 ^ 31 }
    requires vars { engine.old.vars ≡ vars }
    ensures { engine.new.vars ≡ vars }
{
    match engine.propagate() {
        Outcome::Conflict { .. } => "conflict".to_string(alloc).ok(),
        Outcome::Fixed => told(alloc, engine, vars),
    }
}

// What an engine reaches from literals.
fn reached_by(alloc: Global, engine: &mut Engine, vars: u32, given: &str) -> Option<String>
    requires small { vars < 2 ^ 31 }
    requires vars { engine.old.vars ≡ vars }
{
    let given = lits(alloc, given)?;
    if !assume_all(engine, vars, &given) {
        return "refused".to_string(alloc).ok();
    }
    propagated(alloc, engine, vars)
}

// What an engine reaches from literals that are assumed once others, and what they reached, were taken back.
fn reached_anew(
    alloc: Global,
    engine: &mut Engine,
    vars: u32,
    before: &str,
    given: &str,
) -> Option<String>
    requires small { vars < 2 ^ 31 }
    requires vars { engine.old.vars ≡ vars }
{
    let before = lits(alloc, before)?;
    if !assume_all(engine, vars, &before) {
        return None;
    }
    let _ = engine.propagate();
    engine.reset();
    reached_by(alloc, engine, vars, given)
}

// The same of a text.
fn reached_after(
    alloc: Global,
    vars: u32,
    text: &str,
    before: &str,
    given: &str,
) -> Option<String> {
    if vars >= 1 << 31 {
        return None;
    }
    let mut engine = engine_of(alloc, vars, text)?;
    reached_anew(alloc, &mut engine, vars, before, given)
}

pub(crate) fn reached(alloc: Global, vars: u32, text: &str, given: &str) -> Option<String> {
    if vars >= 1 << 31 {
        return None;
    }
    let mut engine = engine_of(alloc, vars, text)?;
    reached_by(alloc, &mut engine, vars, given)
}

// Numbers of variables, constraints, literals that are assumed, and what is reached.
const CASES: &[(u32, &str, &str, &str)] = &[
    (10, COUNTER, "x1 x2", " x1 x2 ~x3 ~x4 x5 ~x6 x7 x8 x9 x10"),
    (10, COUNTER, "x4", " x4 ~x6 ~x8 ~x10"),
    (10, COUNTER, "x1 x2 x3", "conflict"),
    (10, COUNTER, "x1 ~x1", "refused"),
    // A false literal takes its weight.
    (3, WEIGHTED, "~x1", " ~x1 x2 x3"),
];

#[test]
fn literals_are_propagated(rt: HostRuntime) {
    for &(vars, text, given, expected) in CASES {
        let found = reached(rt.alloc(), vars, text, given);
        assert_found(&rt, found, expected, given);
    }
}

// The same, with literals that are assumed before and taken back.
const TAKEN_BACK: &[(u32, &str, &str, &str, &str)] = &[
    (10, COUNTER, "x1 x2 x3", "x4", " x4 ~x6 ~x8 ~x10"),
    (3, WEIGHTED, "x1", "~x1", " ~x1 x2 x3"),
];

#[test]
fn assumptions_are_taken_back(rt: HostRuntime) {
    for &(vars, text, before, given, expected) in TAKEN_BACK {
        let found = reached_after(rt.alloc(), vars, text, before, given);
        assert_found(&rt, found, expected, given);
    }
}
