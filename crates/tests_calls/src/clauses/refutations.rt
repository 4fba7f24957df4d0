// Refutations line by line, by hand from what LRAT lines mean.
ghost use Rattle.std.specs.Prelude.{◌≤◌};
ghost use Rattle.pb_desk.specs.Desk.{IsClosed};

use crate::cases::{assert_each, assert_found};
use crate::samples::desks::desk_with;
use crate::samples::lits;
use pb_base::{Clause, Clauses};
use pb_desk::Desk;
use pb_lrat::{LratChecker, refute};
use std::alloc::Global;

fn push_clause(alloc: Global, made: &mut Clauses, line: &str) -> Option<()> {
    made.push(Clause::from_vec(lits(alloc, line)?)).ok()
}

// The clauses whose literals are the lines of a text.
fn clauses(alloc: Global, text: &str) -> Option<Clauses> {
    let mut made = Clauses::new(alloc);
    for line in text.split('\n') {
        push_clause(alloc, &mut made, line)?;
    }
    Some(made)
}

// Why the first line that is not accepted is refused, or whether they end with an empty clause.
fn told_by(alloc: Global, checker: &mut LratChecker, lines: &str) -> Option<String> {
    for line in lines.lines() {
        if let Err(fault) = checker.line(line.as_bytes()) {
            return format!(in alloc; "{fault:?}").ok();
        }
    }
    let end = if checker.finish() {
        "refuted"
    } else {
        "no empty clause"
    };
    end.to_string(alloc).ok()
}

// The same of lines beside the clauses of a text.
fn told_of(alloc: Global, vars: u32, cnf: &str, lines: &str) -> Option<String> {
    if vars >= 1 << 31 {
        return None;
    }
    let clauses = clauses(alloc, cnf)?;
    let mut checker = LratChecker::new(alloc, vars, clauses).ok()?;
    told_by(alloc, &mut checker, lines)
}

// The first variable or the second, not the first, not the second.
const THREE: &str = "x1 x2\n~x1\n~x2";

const GREAT: &str = "x2147483647 x65536\n~x2147483647\n~x65536 x65535\n~x65535";

// What is answered of a clause of 70,000 literals, the first variable again and again, and of the line that it leads to.
fn told_of_a_long_clause(alloc: Global) -> Option<String> {
    let mut lines = "4".to_string(alloc).ok()?;
    for _ in 0..70_000 {
        lines.push_str(" 1").ok()?;
    }
    lines.push_str(" 0 3 1 0\n5 0 4 2 0").ok()?;
    told_of(alloc, 2, THREE, lines.as_str())
}

// Numbers of variables, clauses, lines, and what is answered of these.
const CASES: &[(u32, &str, &str, &str)] = &[
    (2, THREE, "4 0 2 3 1 0", "refuted"),
    (
        2,
        THREE,
        "c x2\n10 2 0 1 2 0\n1 d 1 7 0\n\n20 0 10 3 0",
        "refuted",
    ),
    (2, THREE, "4 1 -1 0 0\n5 1 1 0 3 1 0\n6 0 5 2 0", "refuted"),
    (0, "", "", "refuted"),
    // Great variables.
    ((1 << 31) - 1, GREAT, "5 0 2 1 3 4 0", "refuted"),
    ((1 << 31) - 1, GREAT, "5 0 2 3 4 1 0", "Denied(NoConflict)"),
    // Many clauses are deleted, and those that are left stay what they are.
    (
        2,
        THREE,
        "4 1 2 0 1 0\n5 2 1 0 1 0\n6 1 2 1 0 1 0\n6 d 1 4 6 0\n7 1 0 3 5 0\n7 d 5 3 0\n8 0 7 2 0",
        "refuted",
    ),
    (
        2,
        THREE,
        "4 1 2 0 1 0\n4 d 1 4 2 0\n5 0 3 4 0",
        "Denied(UnknownHint { id: 4 })",
    ),
    // Lines that are denied.
    (2, THREE, "", "no empty clause"),
    (2, THREE, "4 0 2 3 0", "Denied(NoConflict)"),
    (2, THREE, "3 0 2 0", "Denied(OldId { id: 3 })"),
    (2, THREE, "4 0 9 0", "Denied(UnknownHint { id: 9 })"),
    (
        2,
        THREE,
        "9 d 1 0\n4 0 2 3 1 0",
        "Denied(UnknownHint { id: 1 })",
    ),
    (
        2,
        THREE,
        "4 0 2 3 1 0\n4 0 2 3 1 0",
        "Denied(OldId { id: 4 })",
    ),
    // Lines that are refused.
    (
        2,
        THREE,
        "4 0 2 -3 1 0",
        "Token { column: 7, expected: LratHint }",
    ),
    (
        2,
        THREE,
        "4 3 0 1 0",
        "Token { column: 3, expected: LratLiteral }",
    ),
    (2, THREE, "d 1 0", "Token { column: 1, expected: LratId }"),
    (
        2,
        THREE,
        "4 0 2 0 1",
        "Token { column: 9, expected: LratEnd }",
    ),
    (
        2,
        THREE,
        "9223372036854775808 0 0",
        "Limit { column: 1, which: Number }",
    ),
];

// What is answered of a file of a desk as a refutation.
fn refuted_on<D: Desk>(alloc: Global, desk: &mut D) -> Option<String>
    requires { IsClosed (D.state desk.old) }
{
    desk.open(0, "in").ok()?;
    let clauses = clauses(alloc, THREE)?;
    match refute(alloc, desk, 0, 2, clauses) {
        Ok(()) => "refuted".to_string(alloc).ok(),
        Err(fault) => format!(in alloc; "{fault:?}").ok(),
    }
}

// The same of a text over a desk that gives so many bytes at once, and whose call of this number fails.
fn read(alloc: Global, text: &str, piece: usize, fails: u64) -> Option<String>
    requires { 1 ≤ piece }
{
    let mut desk = desk_with(alloc, text.as_bytes(), fails, piece, 64).ok()?;
    refuted_on(alloc, &mut desk)
}

fn read_whole(alloc: Global, text: &str) -> Option<String> {
    read(alloc, text, 7, 0)
}

const READ: &[(&str, &str)] = &[
    ("4 0 2 3 1 0\n", "refuted"),
    ("c nothing", "NotRefuted { line: 2, why: NoEmptyClause }"),
    (
        "\n4 2 0 1 2 0\n5 0 4 0\n",
        "NotRefuted { line: 3, why: NoConflict }",
    ),
    (
        "4 0 2 -3 1 0",
        "Token { place: Place { line: 1, column: 7 }, expected: LratHint }",
    ),
];

// The same where ten bytes come at once, and the third call fails.
fn read_twice(alloc: Global, text: &str) -> Option<String> {
    read(alloc, text, 10, 3)
}

// Nothing is read after a denied line.
const READ_TWICE: &[(&str, &str)] = &[
    (
        "4 0 2 3 0\n4 0 2 3 1 0\n",
        "NotRefuted { line: 1, why: NoConflict }",
    ),
    (
        "4 0 2 3 9\n4 0 2 3 1 0\n",
        "Token { place: Place { line: 1, column: 10 }, expected: LratHint }",
    ),
    ("c 0 2 3 9\n4 0 2 3 1 0\n", "Failed"),
];

#[test]
fn refutations(rt: HostRuntime) {
    for &(vars, cnf, lines, expected) in CASES {
        let found = told_of(rt.alloc(), vars, cnf, lines);
        assert_found(&rt, found, expected, lines);
    }
    let found = told_of_a_long_clause(rt.alloc());
    assert_found(&rt, found, "refuted", "a long clause");
    assert_each(&rt, read_whole, READ);
    assert_each(&rt, read_twice, READ_TWICE);
}
