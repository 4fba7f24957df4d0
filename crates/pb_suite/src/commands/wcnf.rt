//! Encoding the problem of a file and its objective.
ghost use Rattle.pb_desk.specs.Desk.{IsClosed};
ghost use Rattle.pb_words.specs.WcnfWords.{as_wcnf_words};
ghost use Rattle.pb_suite.specs.Implementing.{Implements};
ghost use Rattle.pb_suite.specs.WcnfSpec.{wcnf_spec};
ghost use Rattle.pb_suite.specs.Seen.{seen_from, Stays};

use crate::outcome::Outcome;
use crate::reading::read_problem;
use crate::storing::{outcome_of, say_summary};
use pb_desk::Desk;
use pb_encode::weighted;
use pb_words::WcnfArgs;
use std::alloc::Global;

/// Makes the weighted CNF file of a problem, of hard clauses and of soft literals that cost what its objective does, and prints the size
/// of the hard clauses.
pub fn wcnf_file<D: Desk>(alloc: Global, asked: &WcnfArgs<'_>, desk: &mut D) -> Outcome
    requires closed { IsClosed (D.state desk.old) }
    ensures implements { let new = D.state desk.new in Implements (wcnf_spec (as_wcnf_words asked.now)) (seen_from new (D.state desk.old)) (seen_from new new) result }
    ensures stays { Stays (D.state desk.old) (D.state desk.new) }
{
    let problem = match read_problem(alloc, asked.opb, asked.bound, desk) {
        Ok(problem) => problem,
        Err(outcome) => return outcome,
    };
    match weighted(alloc, &problem, &asked.options, asked.wcnf, desk) {
        Ok(summary) => say_summary(alloc, &problem, &asked.options, &summary, desk),
        Err(fault) => outcome_of(fault),
    }
}
