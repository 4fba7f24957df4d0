//! Opening a CNF and its derivation.
ghost use Rattle.std.specs.Prelude.{◌≡◌, false, IfErr, IfOk, OnOk, OnErr};
ghost use Rattle.pb_base.specs.Problems.{IsWithinLimits};
ghost use Rattle.pb_desk.specs.Desk.{IfKept, IsClosed, Reads};
ghost use Rattle.pb_words.specs.CheckWords.{as_check_words};
ghost use Rattle.pb_suite.specs.inner.Opening.{opened_both, HasBoth, IsOpened, StopsBefore, StopsOpening};
ghost use Rattle.pb_suite.specs.Seen.{seen_from, Stays};

use crate::outcome::Outcome;
use crate::reading::read_problem;
use pb_base::{Failed, Problem};
use pb_desk::Desk;
use pb_words::CheckArgs;
use std::alloc::Global;

/// Opens a CNF in slot 1 and its derivation in slot 2, before a byte of either is read.
pub fn open_both<D: Desk>(cnf: &str, proof: &str, desk: &mut D) -> Result<(), Failed>
    requires cnf_free { (D.state desk.old).view.reading 1 ≡ false }
    requires proof_free { (D.state desk.old).view.reading 2 ≡ false }
    ensures opened { OnOk result (Reads (opened_both cnf.now proof.now) (D.state desk.old) (D.state desk.new)) }
    ensures cnf_begun { OnOk result ((D.state desk.new).ended 1 ≡ false) }
    ensures proof_begun { OnOk result ((D.state desk.new).ended 2 ≡ false) }
    ensures found { OnOk result (IfKept (D.state desk.new) (D.state desk.new) (HasBoth cnf.now proof.now)) }
    ensures failed { OnErr result (StopsOpening cnf.now proof.now (D.state desk.old) (D.state desk.new)) }
{
    desk.open(1, cnf)?;
    desk.open(2, proof)?;
    Ok(())
}

/// Reads the problem of a check, and opens its CNF in slot 1 and its derivation in slot 2, or says why not.
pub fn open_checked<D: Desk>(
    alloc: Global,
    asked: &CheckArgs<'_>,
    desk: &mut D,
) -> Result<Problem, Outcome>
    requires closed { IsClosed (D.state desk.old) }
    ensures stays { Stays (D.state desk.old) (D.state desk.new) }
    ensures within { IfOk result IsWithinLimits }
    ensures opened { IfOk result (λ p. IsOpened (as_check_words asked.now) p (D.state desk.old) (D.state desk.new)) }
    ensures stopped { let new = D.state desk.new in IfErr result (StopsBefore (as_check_words asked.now) (seen_from new (D.state desk.old)) (seen_from new new)) }
{
    let problem = match read_problem(alloc, asked.opb, asked.bound, desk) {
        Ok(problem) => problem,
        Err(outcome) => return Err(outcome),
    };
    match open_both(asked.cnf, asked.proof, desk) {
        Ok(()) => Ok(problem),
        Err(Failed) => Err(Outcome::ReadFault),
    }
}
