//! Checking a derivation.
ghost use Rattle.std.specs.Prelude.{◌≡◌, ◌≢◌, ◌<◌, ◌^◌, [], true, false, IsTrue, Ok, Err, IfOk, IfErr};
ghost use Rattle.pb_base.specs.Problems.{IsWithinLimits};
ghost use Rattle.pb_desk.specs.Desk.{IfKept, IsSteady};
ghost use Rattle.pb_desk.specs.TwoSlots.{TakesBoth};
ghost use Rattle.pb_check.specs.Outcomes.{StopsCheck, NamesText};
ghost use Rattle.pb_check.specs.Walk.{Walk};
ghost use Rattle.pb_check.specs.inner.Readers.{CanBegin, IsFaultOf};
ghost use Rattle.pb_check.specs.inner.Sessions.{SaysKept};
ghost use Rattle.pb_check.specs.KeptClauses.{HasVars, IsKept};

use crate::fault::{of_cnf, too_few_vars};
use crate::kept::CollectedClauses;
use crate::session::Session;
use crate::verdict::{CheckFault, Verdict};
use pb_base::{Clauses, Problem};
use pb_database::Database;
use pb_desk::Desk;
use pb_norm::load;
use std::alloc::Global;

// Checks a derivation, and collects the clauses of the CNF if they are wanted. With the verdict come the number of variables of the CNF
// and the collected clauses.
fn check_by<D: Desk>(
    alloc: Global,
    problem: &Problem,
    desk: &mut D,
    cnf: u8,
    proof: u8,
    kept: CollectedClauses,
) -> Result<(Verdict, u32, Clauses), CheckFault>
    requires within { IsWithinLimits problem.now }
    requires slots { CanBegin cnf proof (D.state desk.old) }
    requires nothing { kept.clauses ≡ [] }
    ensures verdict { IfOk result (λ r. TakesBoth cnf proof (λ c d. Walk problem.now c d (Ok r.0)) (D.state desk.old) (D.state desk.new)) }
    ensures few_vars { IfOk result (λ r. r.1 < 2 ^ 31) }
    ensures vars { IfOk result (λ r. IfKept (D.state desk.old) (D.state desk.new) (λ t. HasVars (t.left cnf) r.1)) }
    ensures clauses { kept.wanted ≡ true → IfOk result (λ r. SaysKept r.0 cnf r.1 r.2 (D.state desk.old) (D.state desk.new)) }
    ensures stopped { IfErr result (StopsCheck problem.now cnf proof (D.state desk.old) (D.state desk.new)) }
    ensures faults { IfErr result (IsFaultOf (D.state desk.old)) }
{
    let Ok(constraints) = load(alloc, problem) else {
        return Err(CheckFault::NoMemory);
    };
    let Ok(mut session) = Session::new(alloc, cnf, proof, kept) else {
        return Err(CheckFault::NoMemory);
    };
    let head = match session.outputs.cnf.head(desk) {
        Ok(head) => head,
        Err(fault) => return Err(of_cnf(fault)),
    };
    if head.vars < problem.originals() {
        return Err(too_few_vars(&head));
    }
    let loaded = constraints.as_slice();
    let Ok(mut db) = Database::new(alloc, problem.originals(), head.vars, loaded) else {
        return Err(CheckFault::NoMemory);
    };
    match session.check_lines(desk, &mut db, loaded.len() as u64) {
        Ok(verdict) => Ok((verdict, head.vars, session.into_clauses())),
        Err(fault) => Err(fault),
    }
}

/// Checks a derivation for a problem and a CNF, which two open slots have, each from its first byte on. Of both texts nothing is kept but
/// a line, a clause and the live constraints. The first fault, denied step or end in the order of reading is the answer.
///
/// ```text
/// +1 x1 +1 x2 >= 1 ;                        the problem
/// rup +1 x1 +1 x2 >= 1 ; 1\nout 2\nend\n     the derivation, after its first two lines
/// p cnf 2 1\n1 2 0\n                        this CNF: Accepted
/// p cnf 2 1\n1 0\n                          this CNF: Rejected { line: 4, denied: NotImplied { id: 2 } }
/// ```
pub fn check<D: Desk>(
    alloc: Global,
    problem: &Problem,
    desk: &mut D,
    cnf: u8,
    proof: u8,
) -> Result<Verdict, CheckFault>
    requires within { IsWithinLimits problem.now }
    requires cnf_kind { cnf < 5 }
    requires proof_kind { proof < 5 }
    requires apart { cnf ≢ proof }
    requires cnf_open { IsTrue ((D.state desk.old).view.reading cnf) }
    requires proof_open { IsTrue ((D.state desk.old).view.reading proof) }
    requires cnf_begun { (D.state desk.old).ended cnf ≡ false }
    requires proof_begun { (D.state desk.old).ended proof ≡ false }
    // On a visible desk a verdict is the answer for the rest of the two texts.
    ensures verdict { IfOk result (λ v. TakesBoth cnf proof (λ c d. Walk problem.now c d (Ok v)) (D.state desk.old) (D.state desk.new)) }
    // On a visible desk a fault with a place is the answer for the two texts. A failed read is answered only if the count of failed reads
    // rose and what was read leaves the answer open.
    ensures stopped { IfErr result (StopsCheck problem.now cnf proof (D.state desk.old) (D.state desk.new)) }
    // A refusal names one of the two texts, on every desk.
    ensures named { IfErr result NamesText }
    // On a steady desk no read fails.
    ensures steady { IsSteady (D.state desk.old) → result ≢ Err CheckFault.ReadFault }
{
    let kept = CollectedClauses::nothing(alloc);
    let (verdict, _vars, _clauses) = match check_by(alloc, problem, desk, cnf, proof, kept) {
        Ok(found) => found,
        Err(fault) => return Err(fault),
    };
    Ok(verdict)
}

/// Checks a derivation as `check` does. With the verdict come the number of variables of the CNF and, if the derivation is accepted, all
/// clauses of the CNF in order; else none.
pub fn check_kept<D: Desk>(
    alloc: Global,
    problem: &Problem,
    desk: &mut D,
    cnf: u8,
    proof: u8,
) -> Result<(Verdict, u32, Clauses), CheckFault>
    requires within { IsWithinLimits problem.now }
    requires cnf_kind { cnf < 5 }
    requires proof_kind { proof < 5 }
    requires apart { cnf ≢ proof }
    requires cnf_open { IsTrue ((D.state desk.old).view.reading cnf) }
    requires proof_open { IsTrue ((D.state desk.old).view.reading proof) }
    requires cnf_begun { (D.state desk.old).ended cnf ≡ false }
    requires proof_begun { (D.state desk.old).ended proof ≡ false }
    // On a visible desk the verdict is the one that `check` gives.
    ensures verdict { IfOk result (λ r. TakesBoth cnf proof (λ c d. Walk problem.now c d (Ok r.0)) (D.state desk.old) (D.state desk.new)) }
    // The number of variables is below 2^31.
    ensures few_vars { IfOk result (λ r. r.1 < 2 ^ 31) }
    // On a visible desk, if the derivation is accepted, the clauses are exactly those of the CNF text, in order, with the number of
    // variables of its p line; if it is rejected there are none.
    ensures kept { IfOk result (λ r. IfKept (D.state desk.old) (D.state desk.new) (λ t. IsKept r.0 (t.left cnf) r.1 r.2)) }
    // On a visible desk a fault with a place is the answer for the two texts. A failed read is answered only if the count of failed reads
    // rose and what was read leaves the answer open.
    ensures stopped { IfErr result (StopsCheck problem.now cnf proof (D.state desk.old) (D.state desk.new)) }
    // A refusal names one of the two texts, on every desk.
    ensures named { IfErr result NamesText }
    // On a steady desk no read fails.
    ensures steady { IsSteady (D.state desk.old) → result ≢ Err CheckFault.ReadFault }
{
    let kept = CollectedClauses::all(alloc);
    let (verdict, vars, clauses) = match check_by(alloc, problem, desk, cnf, proof, kept) {
        Ok(found) => found,
        Err(fault) => return Err(fault),
    };
    match verdict {
        Verdict::Accepted => Ok((verdict, vars, clauses)),
        Verdict::Rejected { .. } => Ok((verdict, vars, Clauses::new(alloc))),
    }
}
