//! Redundance by a substitution.
//!
//! If the substitution brings the claim to the degree 0, it always holds, and neither a restriction nor a negation is made.
ghost use Rattle.std.specs.Prelude.{◌≡◌, ◌<◌, ◌++◌, List, Option, None, All, IfOk, IfSome, OnOk, IfErr, nat_lt, nat_le, find};
ghost use Rattle.std.specs.Bool.{MatchBool};
ghost use Rattle.pb_base.specs.declared.literal.Lit.{Lit};
ghost use Rattle.pb_norm.specs.Halves.{written};
ghost use Rattle.pb_norm.specs.Constraints.{HasVarsWithin};
ghost use Rattle.pb_steps.specs.declared.step.Step.TheVariants.{Red};
ghost use Rattle.pb_steps.specs.Steps.{IsSpelled, vars_of_sets};
ghost use Rattle.pb_steps.specs.Operations.{IsNarrow, negation};
ghost use Rattle.pb_steps.specs.Substitutions.{restriction};
ghost use Rattle.pb_steps.specs.Database.{constraint_at};
ghost use Rattle.pb_rules.specs.Faults.{IsFault};
ghost use Rattle.std.specs.List.Sorted.{IsStrictlyIncreasing};
ghost use Rattle.pb_rules.specs.inner.Claims.{AllowsClaim};
ghost use Rattle.pb_rules.specs.inner.Obligations.{HasNamed, SlotIsMet, SlotIsUnmet, TellsShown, TellsUnmet, goal_of, red_causes};

use crate::fault::RuleFault;
use crate::rows::{self, is_slim, var_above};
use pb_base::{NoMemory, Term, Var};
use pb_database::Database;
use pb_norm::Linear;
use pb_operations::{degree_left, names_set, negation, negation_implies, restricted, restriction};
use pb_steps::{Denied, Set};

// Returns the first set variable that is above `vars`.
fn set_above(vars: u32, sets: &[Set]) -> Option<Var>
    ensures { result ≡ find (λ v. nat_lt vars v) (vars_of_sets sets.now) }
{
    for set in sets {
        if set.var.index() > vars {
            return Some(set.var);
        }
    }
    None
}

// Returns the first set variable that is one of the problem's.
fn set_original(original: u32, sets: &[Set]) -> Option<Var>
    ensures { result ≡ find (λ v. nat_le v original) (vars_of_sets sets.now) }
{
    for set in sets {
        if set.var.index() <= original {
            return Some(set.var);
        }
    }
    None
}

// Returns the cause of a denial that is seen without propagation.
fn seen_denial(db: &Database, terms: &[Term], right: &i128, sets: &[Set]) -> Option<Denied>
    ensures { result ≡ red_causes db.now terms.now right.now sets.now }
{
    if let Some(var) = var_above(db.vars(), terms) {
        return Some(Denied::UnknownVar { var });
    }
    if let Some(var) = set_above(db.vars(), sets) {
        return Some(Denied::UnknownVar { var });
    }
    if !is_slim(terms, right) {
        return Some(Denied::Width);
    }
    if let Some(var) = set_original(db.original(), sets) {
        return Some(Denied::SetsOriginal { var });
    }
    None
}

// True if the claim's negation implies a goal, by itself or by propagation over all live constraints.
fn is_shown(db: &mut Database, claim: &Linear, goal: &Linear) -> Result<bool, NoMemory>
    requires claim { IsNarrow claim.now }
    requires goal { IsNarrow goal.now }
    requires claim_within { HasVarsWithin db.old.vars claim.now.terms }
    requires goal_within { HasVarsWithin db.old.vars goal.now.terms }
    ensures same { db.new ≡ db.old }
    ensures shown { IfOk result (TellsShown db.old.live claim.now goal.now) }
{
    if negation_implies(claim, goal) {
        return Ok(true);
    }
    let denial = negation(db.alloc(), claim)?;
    let opposite = negation(db.alloc(), goal)?;
    let found = db.refutes(&denial, Some(&opposite))?;
    Ok(found)
}

// True if the claim's own restriction under the substitution is shown.
fn own_is_met(db: &mut Database, claim: &Linear, sets: &[Set]) -> Result<bool, NoMemory>
    requires claim { IsNarrow claim.now }
    requires within { HasVarsWithin db.old.vars claim.now.terms }
    ensures same { db.new ≡ db.old }
    ensures met { IfOk result (TellsShown db.old.live claim.now (restriction sets.now claim.now)) }
{
    // Of a line that gives a fresh variable its meaning nothing is left, and no constraint has to be made to see that.
    if degree_left(sets, claim) == 0 {
        return Ok(true);
    }
    let goal = restriction(db.alloc(), sets, claim)?;
    let found = is_shown(db, claim, &goal)?;
    Ok(found)
}

// Returns the restriction of the constraint with an id under the substitution, if it has a set variable.
fn goal_of(db: &Database, sets: &[Set], id: u64) -> Result<Option<Linear>, NoMemory>
    ensures goal { IfOk result (λ goal. goal ≡ goal_of sets.now (constraint_at db.now.live id)) }
    ensures narrow { IfOk result (λ goal. IfSome goal IsNarrow) }
    ensures within { IfOk result (λ goal. IfSome goal (λ c. HasVarsWithin db.now.vars c.terms)) }
{
    let Some(found) = db.constraint_at(id) else {
        return Ok(None)
    };
    let constraint = found.read(db.alloc())?;
    if !names_set(sets, &constraint) {
        return Ok(None);
    }
    Ok(Some(restricted(sets, constraint)))
}

// True if the constraint with an id has no set variable, or its restriction under the substitution is shown.
fn slot_is_met(db: &mut Database, claim: &Linear, sets: &[Set], id: u64) -> Result<bool, NoMemory>
    requires claim { IsNarrow claim.now }
    requires claim_within { HasVarsWithin db.old.vars claim.now.terms }
    ensures same { db.new ≡ db.old }
    ensures met { IfOk result (λ found. MatchBool found (SlotIsMet db.old claim.now sets.now id) (SlotIsUnmet db.old claim.now sets.now id)) }
{
    let Some(goal) = goal_of(db, sets, id)? else {
        return Ok(true)
    };
    let found = is_shown(db, claim, &goal)?;
    Ok(found)
}

// Appends ids to a list.
fn push_ids(ids: &[u32], list: &mut Vec<u64>) -> Result<(), NoMemory>
    ensures { OnOk result (list.new.items ≡ list.old.items ++ ids.now) }
{
    for id in ids {
        list.push(*id as u64)?;
    }
    Ok(())
}

// Returns the ids of all live constraints that have a set variable, and perhaps others, in any order.
fn ids_to_show(db: &Database, sets: &[Set]) -> Result<Vec<u64>, NoMemory>
    requires { All (λ s. db.now.original < s.var) sets.now }
    ensures { IfOk result (λ ids. HasNamed db.now.live sets.now ids.items) }
{
    let mut ids = Vec::new(db.alloc());
    for set in sets {
        push_ids(db.ids_of(set.var), &mut ids)?;
    }
    Ok(ids)
}

// Returns the ids of all live constraints that have a set variable, and perhaps others, ascending and each once.
fn named_ids(db: &Database, sets: &[Set]) -> Result<Vec<u64>, NoMemory>
    requires { All (λ s. db.now.original < s.var) sets.now }
    ensures named { IfOk result (λ ids. HasNamed db.now.live sets.now ids.items) }
    ensures rising { IfOk result (λ ids. IsStrictlyIncreasing ids.items) }
{
    let mut ids = ids_to_show(db, sets)?;
    ids.sort_unstable();
    ids.dedup();
    Ok(ids)
}

// Returns the id of the first obligation that is not met.
fn first_unmet(db: &mut Database, claim: &Linear, sets: &[Set]) -> Result<Option<u64>, NoMemory>
    requires fresh { All (λ s. db.old.original < s.var) sets.now }
    requires claim { IsNarrow claim.now }
    requires claim_within { HasVarsWithin db.old.vars claim.now.terms }
    ensures same { db.new ≡ db.old }
    ensures unmet { IfOk result (TellsUnmet db.old claim.now sets.now) }
{
    let next = db.next();
    let ids = named_ids(db, sets)?;
    for id in &ids {
        if !slot_is_met(db, claim, sets, *id)? {
            return Ok(Some(*id));
        }
    }
    if !own_is_met(db, claim, sets)? {
        return Ok(Some(next));
    }
    Ok(None)
}

/// Returns the constraint that a `red` line adds, or why the line is denied.
pub(crate) fn claim_of(
    db: &mut Database,
    terms: &[Term],
    right: &i128,
    sets: &[Set],
) -> Result<Linear, RuleFault>
    requires { IsSpelled (Red terms.now right.now sets.now) }
    ensures same { db.new ≡ db.old }
    ensures claim { IfOk result (λ c. c ≡ written terms.now right.now) }
    ensures narrow { IfOk result IsNarrow }
    ensures within { IfOk result (λ c. HasVarsWithin db.old.vars c.terms) }
    ensures allowed { OnOk result (AllowsClaim db.old (Red terms.now right.now sets.now) (written terms.now right.now)) }
    ensures fault { (clause : Option (List Lit)) → IfErr result (IsFault db.old (Red terms.now right.now sets.now) clause) }
{
    if let Some(denied) = seen_denial(db, terms, right, sets) {
        return Err(RuleFault::Denied(denied));
    }
    let claim = rows::claim_of(db.alloc(), terms, right)?;
    if let Some(id) = first_unmet(db, &claim, sets)? {
        return Err(RuleFault::Denied(Denied::Obligation { id }));
    }
    Ok(claim)
}
