//! Constraints that are taken away.
//!
//! Ids that ascend are different. Only if they do not is a set made, to find one that is named twice.
ghost use Rattle.std.specs.Prelude.{◌≡◌, ◌<◌, ◌||◌, List, Option, IfOk, IsTrue, OnOk, IfErr, find, not};
ghost use Rattle.std.specs.List.{AllPairs};
ghost use Rattle.pb_base.specs.declared.literal.Lit.{Lit};
ghost use Rattle.pb_steps.specs.declared.step.Step.TheVariants.{Del};
ghost use Rattle.pb_steps.specs.Steps.{IsSpelled};
ghost use Rattle.pb_steps.specs.Database.{is_live, is_out, reduced};
ghost use Rattle.pb_steps.specs.Allowed.{Allowed};
ghost use Rattle.pb_steps.specs.Denials.{first_gone};
ghost use Rattle.pb_rules.specs.Faults.{IsFault};

use crate::fault::RuleFault;
use crate::rows::id_gone;
use pb_base::NoMemory;
use pb_database::Database;
use pb_steps::Denied;
use std::collections::BTreeSet;

// True if no constraint is live under an id, which an id before it in the step may have deleted.
fn is_gone(db: &Database, is_fresh: bool, id: u64) -> bool
    ensures { result ≡ (not is_fresh || not (is_live db.now.live id)) }
{
    !is_fresh || !db.is_live(id)
}

// True only if ids ascend.
fn ascend(ids: &[u64]) -> bool
    ensures { IsTrue result → AllPairs (λ i j. i < j) ids.now }
{
    ids.is_sorted_by(|id, next| id < next)
}

// Returns the first id that is not live once the constraints before it are deleted.
fn first_gone(db: &Database, ids: &[u64]) -> Result<Option<u64>, NoMemory>
    ensures { IfOk result (λ found. found ≡ first_gone db.now.live ids.now) }
{
    // Then each is named once, and no set is needed.
    if ascend(ids) {
        return Ok(id_gone(db, ids));
    }
    let mut before = BTreeSet::new(db.alloc());
    for id in ids {
        let is_fresh = before.insert(*id)?;
        if is_gone(db, is_fresh, *id) {
            return Ok(Some(*id));
        }
    }
    Ok(None)
}

// Returns the first id whose constraint was put out.
fn first_out(db: &Database, ids: &[u64]) -> Option<u64>
    ensures { result ≡ find (is_out db.now.live) ids.now }
{
    for id in ids {
        if db.is_out(*id) {
            return Some(*id);
        }
    }
    None
}

/// Tests if the constraints with the ids may be deleted.
pub(crate) fn test(db: &Database, ids: &[u64]) -> Result<(), RuleFault>
    requires { IsSpelled (Del ids.now) }
    ensures allowed { (clause : Option (List Lit)) → OnOk result (Allowed db.now (Del ids.now) clause (reduced db.now ids.now)) }
    ensures fault { (clause : Option (List Lit)) → IfErr result (IsFault db.now (Del ids.now) clause) }
{
    if let Some(id) = first_gone(db, ids)? {
        return Err(RuleFault::Denied(Denied::UnknownId { id }));
    }
    if let Some(id) = first_out(db, ids) {
        return Err(RuleFault::Denied(Denied::OutDeleted { id }));
    }
    Ok(())
}
