ghost use Rattle.std.specs.Prelude.{◌<◌, ◌^◌};
ghost use Rattle.pb_norm.specs.Constraints.{AreVarsWithin};

use super::propagation::{Holds, constraints_of, engine_of, told};
use crate::cases::assert_found;
use pb_base::Lit;
use pb_unit::{Constraints, Outcome, Rounds};
use std::alloc::Global;

// x1, and each variable up to 6 from the one before it, in this order and backwards.
const FORWARDS: &str = "1 x1 >= 1 ; 1 ~x1 1 x2 >= 1 ; 1 ~x2 1 x3 >= 1 ; 1 ~x3 1 x4 >= 1 ;\n\
1 ~x4 1 x5 >= 1 ; 1 ~x5 1 x6 >= 1 ;";

const BACKWARDS: &str = "1 ~x5 1 x6 >= 1 ; 1 ~x4 1 x5 >= 1 ; 1 ~x3 1 x4 >= 1 ; 1 ~x2 1 x3 >= 1 ;\n\
1 ~x1 1 x2 >= 1 ; 1 x1 >= 1 ;";
// The same of 12 variables, backwards: more than eight passes.
const LONG: &str = "1 ~x11 1 x12 >= 1 ; 1 ~x10 1 x11 >= 1 ; 1 ~x9 1 x10 >= 1 ; 1 ~x8 1 x9 >= 1 ;\n\
1 ~x7 1 x8 >= 1 ; 1 ~x6 1 x7 >= 1 ; 1 ~x5 1 x6 >= 1 ; 1 ~x4 1 x5 >= 1 ;\n\
1 ~x3 1 x4 >= 1 ; 1 ~x2 1 x3 >= 1 ; 1 ~x1 1 x2 >= 1 ; 1 x1 >= 1 ;";
// 3 x1 + 2 x2 + x3 >= 3 without x1, and that with x2 false beside it.
const WEIGHTED: &str = "1 ~x1 >= 1 ; 3 x1 2 x2 1 x3 >= 3 ;";

const TOO_LITTLE: &str = "1 ~x1 >= 1 ; 3 x1 2 x2 1 x3 >= 3 ; 1 ~x2 >= 1 ;";

impl Holds for Rounds {
    fn has(&self, lit: Lit) -> bool {
        self.holds(lit)
    }
}

// What holds at the end, or at which place there is a conflict, or that there is more.
fn end_text(alloc: Global, rounds: &Rounds, vars: u32, end: Option<Outcome>) -> Option<String>
    requires { vars < 2 ^ 31 }
{
    match end {
        Some(Outcome::Fixed) => told(alloc, rounds, vars),
        Some(Outcome::Conflict { place }) => format!(in alloc; "conflict at {place}").ok(),
        None => format!(in alloc; "{} and more", rounds.len()).ok(),
    }
}

// What a few passes over constraints reach.
fn settled_by(alloc: Global, vars: u32, constraints: &Constraints) -> Option<String>
    requires small { vars < 2 ^ 31 }
    requires within { AreVarsWithin vars constraints.now }
{
    let mut rounds = Rounds::new(alloc, vars).ok()?;
    let end = rounds.settle(constraints, &[]);
    end_text(alloc, &rounds, vars, end)
}

fn settled(alloc: Global, vars: u32, text: &str) -> Option<String> {
    if vars >= 1 << 31 {
        return None;
    }
    let constraints = constraints_of(alloc, vars, text)?;
    let constraints = Constraints::from_vec(alloc, constraints).ok()?;
    settled_by(alloc, vars, &constraints)
}

// What an engine reaches, as it is given over.
fn given_over(alloc: Global, vars: u32, text: &str) -> Option<String>
    requires { vars < 2 ^ 31 }
{
    let mut engine = engine_of(alloc, vars, text)?;
    let outcome = engine.propagate();
    end_text(alloc, &engine.into_held(), vars, Some(outcome))
}

// Numbers of variables, constraints, and what passes over these come to.
const CASES: &[(u32, &str, &str)] = &[
    (6, FORWARDS, " x1 x2 x3 x4 x5 x6"),
    (6, BACKWARDS, " x1 x2 x3 x4 x5 x6"),
    (12, LONG, "8 and more"),
    (3, WEIGHTED, " ~x1 x2 x3"),
    (3, TOO_LITTLE, "conflict at 2"),
    (3, "", ""),
];

#[test]
fn passes_come_to_an_end(rt: HostRuntime) {
    for &(vars, text, expected) in CASES {
        let found = settled(rt.alloc(), vars, text);
        assert_found(&rt, found, expected, text);
    }
    // An engine gives what holds.
    let found = given_over(rt.alloc(), 3, WEIGHTED);
    assert_found(&rt, found, " ~x1 x2 x3", WEIGHTED);
}
