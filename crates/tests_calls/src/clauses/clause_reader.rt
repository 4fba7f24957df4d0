// The reader of clauses over a desk in memory.
ghost use Rattle.std.specs.Prelude.{◌≡◌, ◌<◌, length, None, IsTrue, IfSome};
ghost use Rattle.pb_desk.specs.Desk.{IsClosed};
ghost use Rattle.pb_desk.specs.LineReading.{Knows};
ghost use Rattle.pb_dimacs.specs.CnfReaders.{new_reader};

use crate::cases::{assert_each, assert_found};
use crate::samples::desks::desk_with;
use crate::samples::{constraint_text, lits_text};
use pb_desk::Desk;
use pb_dimacs::{ClauseReader, CnfFault, CnfForms, CnfHead, read_forms};
use std::alloc::Global;

// A fault: its place and what was expected there, or no more than its kind.
fn fault_text(alloc: Global, fault: CnfFault) -> Option<String> {
    match fault {
        CnfFault::Token { place, expected } => format!(in alloc; "{place}: {expected}").ok(),
        _ => format!(in alloc; "{fault:?}").ok(),
    }
}

// Adds the literals of the next clause, and says that there is one; or adds that there is none, or why.
fn push_next<D: Desk>(
    alloc: Global,
    reader: &mut ClauseReader,
    desk: &mut D,
    text: &mut String,
) -> Option<bool>
    requires open { IsTrue ((D.state desk.old).view.reading reader.old.lines.slot) }
    requires knows { Knows reader.old.lines.slot reader.old.lines.ahead (D.state desk.old) }
    requires fine { reader.old.fault ≡ None }
    ensures open { IfSome result (λ more. IsTrue more → IsTrue ((D.state desk.new).view.reading reader.new.lines.slot)) }
    ensures knows { IfSome result (λ more. IsTrue more → Knows reader.new.lines.slot reader.new.lines.ahead (D.state desk.new)) }
    ensures fine { IfSome result (λ more. IsTrue more → reader.new.fault ≡ None) }
{
    let (line, more) = match reader.next_clause(desk) {
        Ok(Some(clause)) => (lits_text(alloc, clause.as_slice()), true),
        Ok(None) => ("none".to_string(alloc).ok(), false),
        Err(fault) => (fault_text(alloc, fault), false),
    };
    text.push(';').ok()?;
    text.push_str(line?.as_str()).ok()?;
    Some(more)
}

// The numbers of a p line and the column of the first, and up to three clauses after it.
fn clauses_text<D: Desk>(
    alloc: Global,
    reader: &mut ClauseReader,
    desk: &mut D,
    head: CnfHead,
) -> Option<String>
    requires open { IsTrue ((D.state desk.old).view.reading reader.old.lines.slot) }
    requires knows { Knows reader.old.lines.slot reader.old.lines.ahead (D.state desk.old) }
    requires fine { reader.old.fault ≡ None }
{
    let mut text = format!(in alloc; "{} {} {}", head.vars, head.clauses, head.place.column).ok()?;
    let _ = push_next(alloc, reader, desk, &mut text)?
        && push_next(alloc, reader, desk, &mut text)?
        && push_next(alloc, reader, desk, &mut text)?;
    Some(text)
}

// What a reader reads in a file.
fn told_by<D: Desk>(alloc: Global, reader: &mut ClauseReader, desk: &mut D) -> Option<String>
    requires closed { IsClosed (D.state desk.old) }
    requires new { reader.old ≡ new_reader 0 }
{
    desk.open(0, "in").ok()?;
    match reader.head(desk) {
        Ok(head) => clauses_text(alloc, reader, desk, head),
        Err(fault) => fault_text(alloc, fault),
    }
}

fn told<D: Desk>(alloc: Global, desk: &mut D) -> Option<String>
    requires { IsClosed (D.state desk.old) }
{
    let mut reader = ClauseReader::new(alloc, 0).ok()?;
    told_by(alloc, &mut reader, desk)
}

fn told_of(alloc: Global, text: &str) -> Option<String> {
    let mut desk = desk_with(alloc, text.as_bytes(), 0, 3, 64).ok()?;
    told(alloc, &mut desk)
}

// Texts, the numbers of their p lines with the column of the first, and clauses in turn.
const IN_TURN: &[(&str, &str)] = &[
    ("p cnf 2 3\n", "2 3 7;2:1: clause word"),
    ("", "1:1: p line"),
    ("p dnf 1 1", "1:3: cnf word"),
    ("p cnf 1", "1:8: clause count"),
    ("c\np cnf 1 1 1", "2:11: line end"),
    (
        "p cnf 2 2\n1 -1 0\nc note\n1\n2 0",
        "2 2 7; x1 ~x1; x1 x2;none",
    ),
    ("p cnf 1 0", "1 0 7;none"),
    ("p cnf 1 1\n2 0", "1 1 7;2:1: clause word"),
    ("p cnf 1 1\n1", "1 1 7;3:1: clause word"),
    ("p cnf 1 0\n\n 1", "1 0 7;3:2: cnf end"),
];

// Adds a constraint, in a line.
fn push_form(alloc: Global, read: &CnfForms, place: usize, text: &mut String) -> Option<()>
    requires { place < length read.now.forms }
{
    let mut terms = Vec::new(alloc);
    let degree = read.forms.read(place, &mut terms).ok()?;
    let line = constraint_text(alloc, &terms, degree)?;
    text.push('\n').ok()?;
    text.push_str(line.as_str()).ok()
}

// The constraints of a whole text, each in a line, after the numbers of its p line.
fn forms_text(alloc: Global, read: &CnfForms) -> Option<String> {
    let mut text = format!(in alloc; "{} {}", read.head.vars, read.head.clauses).ok()?;
    for place in 0..read.forms.len() {
        push_form(alloc, read, place, &mut text)?;
    }
    Some(text)
}

// The same of a file, or its first fault.
fn whole<D: Desk>(alloc: Global, desk: &mut D) -> Option<String>
    requires { IsClosed (D.state desk.old) }
{
    if desk.open(0, "in").is_err() {
        return fault_text(alloc, CnfFault::Failed);
    }
    match read_forms(alloc, desk, 0) {
        Ok(read) => forms_text(alloc, &read),
        Err(fault) => fault_text(alloc, fault),
    }
}

// The same of a text, where the call of this number fails.
fn whole_of(alloc: Global, text: &str, fails: u64) -> Option<String> {
    let mut desk = desk_with(alloc, text.as_bytes(), fails, 3, 64).ok()?;
    whole(alloc, &mut desk)
}

fn whole_text(alloc: Global, text: &str) -> Option<String> {
    whole_of(alloc, text, 0)
}

// Whole texts, or their first faults.
const WHOLE: &[(&str, &str)] = &[
    (
        "p cnf 2 3\n1 -1 0\nc note\n2 1\n2 0\n0",
        "2 3\n>= 0\n1 x1 1 x2 >= 1\n>= 1",
    ),
    ("p cnf 1 2\n1 0\n", "3:1: clause word"),
    ("p cnf 1 1\n1 0 0", "2:5: cnf end"),
    ("", "1:1: p line"),
];

#[test]
fn cnf_texts(rt: HostRuntime) {
    assert_each(&rt, told_of, IN_TURN);
    assert_each(&rt, whole_text, WHOLE);
    // A failed read is no end: opened, and read to the end in six calls.
    for call in 1..9 {
        let found = whole_of(rt.alloc(), "p cnf 1 1\n1 0\n", call);
        let expected = if call < 8 { "Failed" } else { "1 1\n1 x1 >= 1" };
        assert_found(&rt, found, expected, "p cnf 1 1\n1 0\n");
    }
}
