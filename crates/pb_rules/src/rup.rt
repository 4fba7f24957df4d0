//! Reverse unit propagation.
ghost use Rattle.std.specs.Prelude.{◌≡◌, List, Option, IfOk, OnOk, IfErr};
ghost use Rattle.pb_base.specs.declared.literal.Lit.{Lit};
ghost use Rattle.pb_norm.specs.Halves.{written};
ghost use Rattle.pb_norm.specs.Constraints.{HasVarsWithin};
ghost use Rattle.pb_steps.specs.declared.step.Step.TheVariants.{Rup};
ghost use Rattle.pb_steps.specs.Steps.{IsSpelled};
ghost use Rattle.pb_steps.specs.Operations.{IsNarrow};
ghost use Rattle.pb_steps.specs.Allowed.{propagated};
ghost use Rattle.pb_steps.specs.Denials.{seen_denial};
ghost use Rattle.pb_rules.specs.Faults.{IsFault};
ghost use Rattle.pb_rules.specs.inner.Claims.{AllowsClaim};
ghost use Rattle.pb_database.specs.Refutations.{TellsConflict};

use crate::fault::RuleFault;
use crate::rows::{self, id_gone, is_slim, var_above};
use pb_base::{NoMemory, Term};
use pb_database::Database;
use pb_norm::Linear;
use pb_operations::negation;
use pb_steps::Denied;

// Returns the cause of a denial that is seen without propagation.
fn seen_denial(db: &Database, terms: &[Term], right: &i128, ids: &[u64]) -> Option<Denied>
    ensures { (clause : Option (List Lit)) → result ≡ seen_denial db.now (Rup terms.now right.now ids.now) clause }
{
    if let Some(var) = var_above(db.vars(), terms) {
        return Some(Denied::UnknownVar { var });
    }
    if let Some(id) = id_gone(db, ids) {
        return Some(Denied::UnknownId { id });
    }
    if !is_slim(terms, right) {
        return Some(Denied::Width);
    }
    None
}

// True if propagation over the claim's negation and the constraints with the ids, or all live ones if there are no ids, reaches a
// conflict.
fn is_shown(db: &mut Database, claim: &Linear, ids: &[u64]) -> Result<bool, NoMemory>
    requires narrow { IsNarrow claim.now }
    requires within { HasVarsWithin db.old.vars claim.now.terms }
    ensures same { db.new ≡ db.old }
    ensures answer { IfOk result (TellsConflict (propagated db.old.live claim.now ids.now)) }
{
    let denial = negation(db.alloc(), claim)?;
    if ids.is_empty() {
        let found = db.refutes(&denial, None)?;
        return Ok(found);
    }
    let found = db.refutes_listed(&denial, ids)?;
    Ok(found)
}

/// Returns the constraint that a `rup` line adds, or why the line is denied.
pub(crate) fn claim_of(
    db: &mut Database,
    terms: &[Term],
    right: &i128,
    ids: &[u64],
) -> Result<Linear, RuleFault>
    requires { IsSpelled (Rup terms.now right.now ids.now) }
    ensures same { db.new ≡ db.old }
    ensures claim { IfOk result (λ c. c ≡ written terms.now right.now) }
    ensures narrow { IfOk result IsNarrow }
    ensures within { IfOk result (λ c. HasVarsWithin db.old.vars c.terms) }
    ensures allowed { OnOk result (AllowsClaim db.old (Rup terms.now right.now ids.now) (written terms.now right.now)) }
    ensures fault { (clause : Option (List Lit)) → IfErr result (IsFault db.old (Rup terms.now right.now ids.now) clause) }
{
    if let Some(denied) = seen_denial(db, terms, right, ids) {
        return Err(RuleFault::Denied(denied));
    }
    let claim = rows::claim_of(db.alloc(), terms, right)?;
    if !is_shown(db, &claim, ids)? {
        return Err(RuleFault::Denied(Denied::NotPropagated));
    }
    Ok(claim)
}
