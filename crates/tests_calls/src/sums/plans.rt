ghost use Rattle.pb_family.specs.Families.{VarsBelow};

use crate::cases::assert_found;
use crate::samples::linear;
use pb_base::{Amo, Card, EqualMode, General, MAX_BUDGET, Options};
use pb_choice::{Plan, plan};
use pb_family::{TextSink, are_below};
use pb_norm::Linear;
use std::alloc::Global;

// How a plan treats its constraint, its numbers of fresh variables and clauses, and the clauses.
fn plan_text(alloc: Global, plan: &Plan<'_>, first: u32) -> Option<String>
    requires { VarsBelow first plan.now.constraint.now.terms }
{
    let counts = plan.counts();
    if first < 1 || first > 1000 || counts.fresh > 1000 {
        return None;
    }
    let mut sink = TextSink::new(alloc);
    plan.emit(alloc, first, &mut sink).ok()?;
    let lines = str::from_utf8(sink.text()).ok()?;
    let treatment = plan.treatment();
    format!(in alloc;
        "{treatment:?} {} {}\n{lines}",
        counts.fresh, counts.clauses
    )
    .ok()
}

// The same of a constraint's plan.
fn plan_of(alloc: Global, constraint: &Linear, options: &Options, first: u32) -> Option<String> {
    if constraint.weight() >= 1 << 100 {
        return None;
    }
    if !are_below(constraint.terms(), first) {
        return None;
    }
    let plan = plan(alloc, constraint, options).ok()?;
    plan_text(alloc, &plan, first)
}

// The same of a statement's plan.
fn planned(alloc: Global, text: &str, options: &Options, first: u32) -> Option<String> {
    let constraint = linear(alloc, text)?;
    plan_of(alloc, &constraint, options, first)
}

// Options with these families and a budget within its range.
fn options_of(amo: Amo, card: Card, general: General, budget: u64) -> Options {
    Options {
        amo,
        card,
        general,
        equal: EqualMode::Split,
        budget: budget.max(1).min(MAX_BUDGET),
        table: false,
    }
}

// How a statement with fresh variables from 5 on is treated.
fn treatment(alloc: Global, text: &str, options: &Options) -> Option<String> {
    let plan = planned(alloc, text, options, 5)?;
    plan.split(' ').next()?.to_string(alloc).ok()
}

// Three weights of negated variables are to reach four.
const WEIGHTS: &str = "4 ~x1 3 ~x2 2 ~x3 >= 4 ;";

const NODES: &str = "Diagram 3 5\n-4 -1 5 0\n-5 6 0\n-5 -2 0\n-6 -3 0\n4 0\n";

const ADDED: &str = "Adder 4 16\n2 3 -4 0\n2 -3 4 0\n-2 3 4 0\n-2 -3 -4 0\n-2 -3 5 0\n2 -5 0\n\
3 -5 0\n1 5 -6 0\n1 -5 6 0\n-1 5 6 0\n-1 -5 -6 0\n-1 -5 7 0\n1 -7 0\n5 -7 0\n-4 -6 0\n-7 0\n";

const MERGED: &str = "Tree 8 11\n-2 5 0\n-3 4 0\n-2 -3 6 0\n-1 9 0\n-4 7 0\n-5 8 0\n-6 10 0\n\
-1 -4 11 0\n-1 -5 11 0\n-1 -6 11 0\n-11 0\n";

// Two of four negated variables are to be true.
const TWO: &str = "1 ~x1 1 ~x2 1 ~x3 1 ~x4 >= 2 ;";

const ROWS: &str =
    "Counter 6 13\n-1 5 0\n-6 0\n-2 7 0\n-5 7 0\n-2 -5 8 0\n-6 8 0\n-2 -6 0\n-3 9 0\n\
-7 9 0\n-3 -7 10 0\n-8 10 0\n-3 -8 0\n-4 -10 0\n";

const HALVES: &str =
    "Totalizer 7 14\n-2 5 0\n-1 5 0\n-1 -2 6 0\n-4 7 0\n-3 7 0\n-3 -4 8 0\n-7 9 0\n\
-8 10 0\n-5 9 0\n-5 -7 10 0\n-5 -8 11 0\n-6 10 0\n-6 -7 11 0\n-11 0\n";

// At most one of three variables.
const ONE: &str = "1 ~x1 1 ~x2 1 ~x3 >= 2 ;";

// Statements, what is chosen and the budget, the first fresh variable, and the expected plan.
const CASES: &[(&str, Amo, Card, General, u64, u32, &str)] = &[
    (
        WEIGHTS,
        Amo::Auto,
        Card::Auto,
        General::Diagram,
        3,
        4,
        NODES,
    ),
    (
        WEIGHTS,
        Amo::Auto,
        Card::Auto,
        General::Diagram,
        2,
        4,
        ADDED,
    ),
    (WEIGHTS, Amo::Auto, Card::Auto, General::Adder, 1, 4, ADDED),
    (WEIGHTS, Amo::Auto, Card::Auto, General::Tree, 8, 4, MERGED),
    (WEIGHTS, Amo::Auto, Card::Auto, General::Tree, 7, 4, ADDED),
    (TWO, Amo::Auto, Card::Counter, General::Diagram, 6, 5, ROWS),
    (
        TWO,
        Amo::Auto,
        Card::Totalizer,
        General::Diagram,
        7,
        5,
        HALVES,
    ),
    (
        ONE,
        Amo::Auto,
        Card::Auto,
        General::Diagram,
        1,
        4,
        "Pairwise 0 3\n-1 -2 0\n-1 -3 0\n-2 -3 0\n",
    ),
    (
        ONE,
        Amo::Product,
        Card::Auto,
        General::Diagram,
        1,
        4,
        "Product 0 3\n-1 -2 0\n-1 -3 0\n-2 -3 0\n",
    ),
    (
        ONE,
        Amo::Ladder,
        Card::Auto,
        General::Diagram,
        1,
        4,
        "Ladder 2 5\n-5 4 0\n-1 -4 0\n-2 -5 0\n-2 4 0\n-3 5 0\n",
    ),
];

// One weight forces its literal, and one of the others is to be true.
const UNIT: &str = "5 ~x1 3 ~x2 2 ~x3 >= 6 ;";

#[test]
fn plans(rt: HostRuntime) {
    for &(text, amo, card, general, budget, first, expected) in CASES {
        let options = options_of(amo, card, general, budget);
        let found = planned(rt.alloc(), text, &options, first);
        assert_found(&rt, found, expected, text);
    }
    // Past the budget.
    for &(card, budget) in &[(Card::Counter, 5), (Card::Totalizer, 6)] {
        let options = options_of(Amo::Auto, card, General::Diagram, budget);
        let found = treatment(rt.alloc(), TWO, &options);
        assert_found(&rt, found, "Adder", TWO);
    }
}

#[test]
fn defaults(rt: HostRuntime) {
    let found = planned(rt.alloc(), UNIT, &Options::default(), 4);
    assert_found(&rt, found, "Clause 0 2\n-1 0\n-2 -3 0\n", UNIT);
    let is_default = match Options::default() {
        Options {
            amo: Amo::Auto,
            card: Card::Auto,
            general: General::Diagram,
            equal: EqualMode::Split,
            budget: 50_000,
            table: false,
            ..
        } => true,
        _ => false,
    };
    assert!(rt; is_default && MAX_BUDGET == 10_000_000);
}
