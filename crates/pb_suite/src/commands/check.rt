//! Checking the derivation of a file.
ghost use Rattle.std.specs.Prelude.{◌≡◌};
ghost use Rattle.pb_desk.specs.Desk.{IsClosed};
ghost use Rattle.pb_words.specs.CheckWords.{as_check_words};
ghost use Rattle.pb_words.specs.Parsed.Wanted.{Check};
ghost use Rattle.pb_suite.specs.Implementing.{Implements};
ghost use Rattle.pb_suite.specs.InTurn.{OpensInTurn};
ghost use Rattle.pb_suite.specs.CheckSpec.{check_spec};
ghost use Rattle.pb_suite.specs.inner.Runs.{check_refusal};
ghost use Rattle.pb_suite.specs.Seen.{seen_from, Stays};

use crate::opening::open_checked;
use crate::outcome::{Outcome, limited, refused};
use crate::saying::say;
use pb_check::{CheckFault, Verdict, check};
use pb_desk::Desk;
use pb_words::CheckArgs;
use std::alloc::Global;

/// Returns the outcome that reports a fault of checking.
pub fn check_refusal(fault: CheckFault) -> Outcome
    ensures { result ≡ check_refusal fault }
{
    match fault {
        CheckFault::Refused {
            file,
            place,
            expected,
        } => refused(file, place, expected),
        CheckFault::Limit { file, place, which } => limited(file, place, which),
        CheckFault::ReadFault => Outcome::ReadFault,
        CheckFault::NoMemory => Outcome::NoMemory,
    }
}

/// Checks whether a derivation shows that each solution of a problem extends to a model of a CNF, and prints `accepted` if it does. The
/// problem is read whole first, and of the other two nothing is kept but a line, a clause and the live constraints.
///
/// ```text
/// +1 x1 +1 x2 >= 1 ;      the problem; the derivation is that of `encode`
/// p cnf 2 1\n1 2 0\n      with this CNF: `accepted`
/// p cnf 2 1\n1 0\n        with this one: `Rejected`, at line 4 of the derivation: not implied by 2
/// ```
pub fn check_file<D: Desk>(alloc: Global, asked: &CheckArgs<'_>, desk: &mut D) -> Outcome
    requires closed { IsClosed (D.state desk.old) }
    ensures implements { let new = D.state desk.new in Implements (check_spec (as_check_words asked.now)) (seen_from new (D.state desk.old)) (seen_from new new) result }
    ensures in_turn { let new = D.state desk.new in OpensInTurn (Check (as_check_words asked.now)) (seen_from new (D.state desk.old)) (seen_from new new) }
    ensures stays { Stays (D.state desk.old) (D.state desk.new) }
{
    let problem = match open_checked(alloc, asked, desk) {
        Ok(problem) => problem,
        Err(outcome) => return outcome,
    };
    match check(alloc, &problem, desk, 1, 2) {
        Ok(Verdict::Accepted) => say(desk, b"accepted\n"),
        Ok(Verdict::Rejected { line, denied }) => Outcome::Rejected { line, denied },
        Err(fault) => check_refusal(fault),
    }
}
