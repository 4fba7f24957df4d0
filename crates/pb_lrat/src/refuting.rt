//! Going through a refutation, line after line.
ghost use Rattle.std.specs.Prelude.{◌≡◌, ◌≢◌, ◌<◌, ◌^◌, false, IsTrue, None, Err, IfErr, OnOk};
ghost use Rattle.pb_desk.specs.Desk.{IsSteady};
ghost use Rattle.pb_desk.specs.LineReading.{Knows};
ghost use Rattle.pb_dimacs.specs.CnfRows.{cnf_limits};
ghost use Rattle.pb_lrat.specs.Refuting.{Refutes, StopsRefuting, RefutesLines, StopsLines};

use crate::checker::LratChecker;
use crate::denied::LratDenied;
use crate::refute_fault::{RefuteFault, of_line, of_lrat};
use pb_base::{Clauses, MAX_FILE, MAX_LINE, MAX_LINES};
use pb_desk::{Desk, LineLimits, LineReader};
use std::alloc::Global;

const LIMITS: LineLimits = LineLimits {
    text: MAX_FILE,
    line: MAX_LINE,
    lines: MAX_LINES,
};

// Checks the lines that are unread, to the end of the text.
fn take_lines<D: Desk>(
    desk: &mut D,
    lines: &mut LineReader,
    checker: &mut LratChecker,
) -> Result<(), RefuteFault>
    requires open { IsTrue ((D.state desk.old).view.reading lines.old.slot) }
    requires knows { Knows lines.old.slot lines.old.ahead (D.state desk.old) }
    requires fine { lines.old.fault ≡ None }
    requires limits { lines.old.limits ≡ cnf_limits }
    ensures refuted { OnOk result (RefutesLines checker.old lines.old lines.new (D.state desk.old) (D.state desk.new)) }
    ensures stopped { IfErr result (λ fault. StopsLines fault checker.old lines.old lines.new (D.state desk.old) (D.state desk.new)) }
    ensures steady { IsSteady (D.state desk.old) → result ≢ Err RefuteFault.Failed }
{
    'rows: loop {
        match lines.next_line(desk) {
            Ok(more) => {
                if !more {
                    if checker.finish() {
                        return Ok(());
                    }
                    return Err(RefuteFault::NotRefuted {
                        line: lines.number() + 1,
                        why: LratDenied::NoEmptyClause,
                    });
                }
            }
            Err(fault) => return Err(of_line(fault)),
        }
        match checker.line(lines.line()) {
            Ok(()) => {}
            Err(fault) => return Err(of_lrat(lines.number(), fault)),
        }
    }
}

/// Checks the unread text of an open slot as an LRAT refutation of clauses over so many variables. Of the text nothing is kept but a
/// line.
pub fn refute<D: Desk>(
    alloc: Global,
    desk: &mut D,
    slot: u8,
    vars: u32,
    clauses: Clauses,
) -> Result<(), RefuteFault>
    requires kind { slot < 5 }
    requires open { IsTrue ((D.state desk.old).view.reading slot) }
    requires not_ended { (D.state desk.old).ended slot ≡ false }
    requires vars { vars < 2 ^ 31 }
    // On a visible desk `Ok` means that the rest of the slot's text refutes the clauses.
    ensures refuted { OnOk result (Refutes vars clauses slot (D.state desk.old) (D.state desk.new)) }
    // On a visible desk a fault is the text's first, with its place, or the first denied line, or `NoMemory`. A failed read is answered
    // only if the checker accepts every complete line read before it, and no line, even an incomplete last one, is too long. The end is met
    // at most once.
    ensures stopped { IfErr result (StopsRefuting vars clauses slot (D.state desk.old) (D.state desk.new)) }
    // On a steady desk no read fails.
    ensures steady { IsSteady (D.state desk.old) → result ≢ Err RefuteFault.Failed }
{
    let mut lines = LineReader::new(alloc, slot, LIMITS)?;
    let mut checker = LratChecker::new(alloc, vars, clauses)?;
    take_lines(desk, &mut lines, &mut checker)
}
