//! Propagating given literals over the clauses of a file.
ghost use Rattle.std.specs.Prelude.{IfOk};
ghost use Rattle.pb_desk.specs.Desk.{IsClosed};
ghost use Rattle.pb_words.specs.ProbeWords.{as_probe_words};
ghost use Rattle.pb_suite.specs.Implementing.{Implements};
ghost use Rattle.pb_suite.specs.ProbeSpec.{probe_spec, SaysOfLits};
ghost use Rattle.pb_suite.specs.Seen.{seen_from, Stays};
ghost use Rattle.pb_unit.specs.Reaching.{OfClauses};

use crate::cnf::read_cnf;
use crate::line::{conflict_line, fixed_line};
use crate::outcome::Outcome;
use crate::saying::say;
use pb_base::{Lits, NoMemory};
use pb_desk::Desk;
use pb_unit::{Constraints, reached_literals};
use pb_words::ProbeArgs;
use std::alloc::Global;

// Returns the line that `probe` prints: what unit propagation over the clauses reaches from the literals, or that there is a conflict.
fn line_of(alloc: Global, forms: Constraints, lits: &Lits) -> Result<Vec<u8>, NoMemory>
    ensures { OfClauses forms (λ clauses. IfOk result (λ line. SaysOfLits clauses lits.now line.items)) }
{
    match reached_literals(alloc, forms, lits)? {
        None => Ok(conflict_line(alloc)?),
        Some(found) => Ok(fixed_line(alloc, &found)?),
    }
}

/// Prints what unit propagation over the clauses of a file reaches from the literals.
///
/// ```text
/// p cnf 3 2\n-1 2 0\n-2 3 0\n     the CNF
/// x1                              printed: fixed 1 2 3 0
/// x1 ~x3                          printed: conflict
/// ```
pub fn probe_file<D: Desk>(alloc: Global, asked: &ProbeArgs<'_>, desk: &mut D) -> Outcome
    requires closed { IsClosed (D.state desk.old) }
    ensures implements { let new = D.state desk.new in Implements (probe_spec (as_probe_words asked.now)) (seen_from new (D.state desk.old)) (seen_from new new) result }
    ensures stays { Stays (D.state desk.old) (D.state desk.new) }
{
    let read = match read_cnf(alloc, asked.cnf, desk) {
        Ok(read) => read,
        Err(outcome) => return outcome,
    };
    match line_of(alloc, read.forms, &asked.lits) {
        Ok(line) => say(desk, &line),
        Err(NoMemory) => Outcome::NoMemory,
    }
}
