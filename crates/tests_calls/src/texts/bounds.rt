ghost use Rattle.std.specs.Prelude.{◌≤◌, ◌^◌, length};
ghost use Rattle.pb_base.specs.Problems.{IsWithinLimits};

use crate::cases::assert_found;
use pb_base::{MAX_STATEMENTS, Problem, Raw};
use pb_opb::{BoundFault, bounded, read_opb};
use std::alloc::Global;

// The statement at a place.
fn statement_text(alloc: Global, problem: &Problem, place: usize) -> Option<String> {
    let mut left = problem.statements.iter();
    for _ in 0..place {
        left.next()?;
    }
    let mut statement = Raw::empty(alloc);
    if !left.next_into(&mut statement).ok()? {
        return None;
    }
    format!(in alloc; "{} terms, {}", statement.terms.len(), statement.right).ok()
}

// The statement that a bound adds to a problem, or why none is added.
fn added_to(alloc: Global, problem: Problem, bound: i128) -> Option<String>
    requires within { IsWithinLimits problem }
    requires room { length problem.statements ≤ 2 ^ 24 }
{
    let count = problem.statements.len();
    match bounded(alloc, problem, bound) {
        Ok(problem) => statement_text(alloc, &problem, count),
        Err(BoundFault::Weight) => "weight".to_string(alloc).ok(),
        Err(BoundFault::NoMemory) => None,
    }
}

// The same of the problem of a text.
fn added(alloc: Global, text: &str, bound: i128) -> Option<String> {
    let problem = read_opb(alloc, text.as_bytes()).ok()?;
    if problem.statements.len() > MAX_STATEMENTS {
        return None;
    }
    added_to(alloc, problem, bound)
}

const COSTS: &str = "min: +3 x1 -1 ~x2 ; +1 x1 +1 x2 >= 1 ;";

// Problems, bounds, and the expected statement.
const CASES: &[(&str, i128, &str)] = &[
    (COSTS, 2, "2 terms, 2"),
    (COSTS, -2, "2 terms, -2"),
    ("+1 x1 >= 1 ;", -1, "0 terms, -1"),
    ("min: +1 x1 x1 ~x1 +7 x1 ~x2 ;", 0, "1 terms, 0"),
    (
        COSTS,
        (1 << 100) - 5,
        "2 terms, 1267650600228229401496703205371",
    ),
    (COSTS, (1 << 100) - 4, "weight"),
    (COSTS, 4 - (1 << 100), "weight"),
    ("", 1 << 100, "weight"),
];

#[test]
fn bounds_on_objectives(rt: HostRuntime) {
    for &(text, bound, expected) in CASES {
        let found = added(rt.alloc(), text, bound);
        assert_found(&rt, found, expected, text);
    }
}
