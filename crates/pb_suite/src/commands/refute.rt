//! Refuting the problem of a file.
ghost use Rattle.std.specs.Prelude.{◌≡◌, ◌<◌, ◌^◌, false, IsTrue};
ghost use Rattle.pb_base.specs.Problems.{IsWithinLimits};
ghost use Rattle.pb_desk.specs.Desk.{IsClosed};
ghost use Rattle.pb_words.specs.RefuteWords.{as_refute_words};
ghost use Rattle.pb_words.specs.Parsed.Wanted.{Refute};
ghost use Rattle.pb_suite.specs.Implementing.{Implements};
ghost use Rattle.pb_suite.specs.InTurn.{OpensInTurn};
ghost use Rattle.pb_suite.specs.RefuteSpec.{refute_spec};
ghost use Rattle.pb_suite.specs.inner.Refuting.{EndsFollowing, EndsRefuting};
ghost use Rattle.pb_suite.specs.inner.Runs.{lrat_refusal};
ghost use Rattle.pb_suite.specs.Seen.{seen_from, Stays};

use crate::commands::check::check_refusal;
use crate::opening::open_checked;
use crate::outcome::{Outcome, limited, refused};
use crate::saying::say;
use pb_base::{Clauses, Failed, File, Problem};
use pb_check::{Verdict, check_kept};
use pb_desk::Desk;
use pb_lrat::{RefuteFault, refute};
use pb_words::RefuteArgs;
use std::alloc::Global;

// Returns the outcome that reports why a text is no refutation.
fn lrat_refusal(fault: RefuteFault) -> Outcome
    ensures { result ≡ lrat_refusal fault }
{
    match fault {
        RefuteFault::Token { place, expected } => refused(File::Lrat, place, expected),
        RefuteFault::Limit { place, which } => limited(File::Lrat, place, which),
        RefuteFault::NotRefuted { line, why } => Outcome::NotRefuted { line, why },
        RefuteFault::Failed => Outcome::ReadFault,
        RefuteFault::NoMemory => Outcome::NoMemory,
    }
}

// Opens and checks the refutation of the clauses of a CNF, and prints `line` if it is one.
fn check_refutation<D: Desk>(
    alloc: Global,
    vars: u32,
    clauses: Clauses,
    lrat: &str,
    line: &[u8],
    desk: &mut D,
) -> Outcome
    requires few { vars < 2 ^ 31 }
    requires free { (D.state desk.old).view.reading 3 ≡ false }
    ensures { EndsFollowing vars clauses lrat.now line.now (D.state desk.old) (D.state desk.new) result }
{
    match desk.open(3, lrat) {
        Ok(()) => {}
        Err(Failed) => return Outcome::ReadFault,
    }
    match refute(alloc, desk, 3, vars, clauses) {
        Ok(()) => say(desk, line),
        Err(fault) => lrat_refusal(fault),
    }
}

/// Checks a CNF and its derivation, which were opened in slots 1 and 2, and then the refutation, and prints `line` if the derivation is
/// accepted and the CNF refuted.
pub fn refute_opened<D: Desk>(
    alloc: Global,
    problem: &Problem,
    lrat: &str,
    line: &[u8],
    desk: &mut D,
) -> Outcome
    requires within { IsWithinLimits problem.now }
    requires cnf_open { IsTrue ((D.state desk.old).view.reading 1) }
    requires proof_open { IsTrue ((D.state desk.old).view.reading 2) }
    requires cnf_begun { (D.state desk.old).ended 1 ≡ false }
    requires proof_begun { (D.state desk.old).ended 2 ≡ false }
    requires free { (D.state desk.old).view.reading 3 ≡ false }
    ensures { EndsRefuting problem.now lrat.now line.now (D.state desk.old) (D.state desk.new) result }
{
    let (verdict, vars, clauses) = match check_kept(alloc, problem, desk, 1, 2) {
        Ok(found) => found,
        Err(fault) => return check_refusal(fault),
    };
    match verdict {
        Verdict::Accepted => check_refutation(alloc, vars, clauses, lrat, line, desk),
        Verdict::Rejected { line, denied } => Outcome::Rejected { line, denied },
    }
}

/// Checks whether a problem has no solution, and prints `refuted` if so: its derivation is accepted, so that each solution extends to a
/// model of the CNF, and the refutation shows that there is none. The problem is read whole first; the clauses of the CNF are kept, and
/// of the other texts a line.
///
/// ```text
/// +1 x1 >= 1 ; +1 ~x1 >= 1 ;      the problem; CNF and derivation are those of `encode`
/// 3 0 1 2 0\n                     the refutation: the empty clause, by clauses 1 and 2
/// ```
pub fn refute_file<D: Desk>(alloc: Global, asked: &RefuteArgs<'_>, desk: &mut D) -> Outcome
    requires closed { IsClosed (D.state desk.old) }
    ensures implements { let new = D.state desk.new in Implements (refute_spec (as_refute_words asked.now)) (seen_from new (D.state desk.old)) (seen_from new new) result }
    ensures in_turn { let new = D.state desk.new in OpensInTurn (Refute (as_refute_words asked.now)) (seen_from new (D.state desk.old)) (seen_from new new) }
    ensures stays { Stays (D.state desk.old) (D.state desk.new) }
{
    let problem = match open_checked(alloc, &asked.checking, desk) {
        Ok(problem) => problem,
        Err(outcome) => return outcome,
    };
    refute_opened(alloc, &problem, asked.lrat, b"refuted\n", desk)
}
