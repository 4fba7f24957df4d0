//! Steps that change which constraints are live.
ghost use Rattle.std.specs.Prelude.{◌≡◌, List, Option, OnOk, OnErr, IfOk, IfErr};
ghost use Rattle.std.specs.Option.{option_copied};
ghost use Rattle.pb_base.specs.declared.literal.Lit.{Lit};
ghost use Rattle.pb_steps.specs.declared.step.Step.TheVariants.{Pol, Rup, Red, Del, Out};
ghost use Rattle.pb_steps.specs.Steps.{IsRule, IsSpelled};
ghost use Rattle.pb_steps.specs.Allowed.{Allowed};
ghost use Rattle.pb_rules.specs.Answers.{applied};
ghost use Rattle.pb_rules.specs.Faults.{IsFault};

use crate::fault::RuleFault;
use crate::{del, out, pol, red, rup};
use pb_base::{Clause, Term};
use pb_database::Database;
use pb_steps::{PolOp, Set, Step};

/// The answer to a step that is allowed.
#[derive(Clone, Copy)]
pub enum Applied {
    /// A constraint joined under this id.
    Id(u64),
    /// No constraint joined.
    Done,
}

// Adds the constraint that operations make.
fn add_sum(db: &mut Database, ops: &[PolOp]) -> Result<Applied, RuleFault>
    requires { IsSpelled (Pol ops.now) }
    ensures allowed { (clause : Option (List Lit)) → OnOk result (Allowed db.old (Pol ops.now) clause db.new) }
    ensures given { IfOk result (λ a. a ≡ applied db.old (Pol ops.now)) }
    ensures fault { (clause : Option (List Lit)) → IfErr result (IsFault db.old (Pol ops.now) clause) }
    ensures unchanged { OnErr result (db.new ≡ db.old) }
{
    match pol::sum_of(db, ops) {
        Err(fault) => Err(fault),
        Ok(made) => {
            let id = db.grow(made)?;
            Ok(Applied::Id(id))
        }
    }
}

// Adds a constraint that propagation shows.
fn add_propagated(
    db: &mut Database,
    terms: &[Term],
    right: &i128,
    ids: &[u64],
) -> Result<Applied, RuleFault>
    requires { IsSpelled (Rup terms.now right.now ids.now) }
    ensures allowed { (clause : Option (List Lit)) → OnOk result (Allowed db.old (Rup terms.now right.now ids.now) clause db.new) }
    ensures given { IfOk result (λ a. a ≡ applied db.old (Rup terms.now right.now ids.now)) }
    ensures fault { (clause : Option (List Lit)) → IfErr result (IsFault db.old (Rup terms.now right.now ids.now) clause) }
    ensures unchanged { OnErr result (db.new ≡ db.old) }
{
    match rup::claim_of(db, terms, right, ids) {
        Err(fault) => Err(fault),
        Ok(claim) => {
            let id = db.grow(claim)?;
            Ok(Applied::Id(id))
        }
    }
}

// Adds a constraint that is redundant by a substitution.
fn add_redundant(
    db: &mut Database,
    terms: &[Term],
    right: &i128,
    sets: &[Set],
) -> Result<Applied, RuleFault>
    requires { IsSpelled (Red terms.now right.now sets.now) }
    ensures allowed { (clause : Option (List Lit)) → OnOk result (Allowed db.old (Red terms.now right.now sets.now) clause db.new) }
    ensures given { IfOk result (λ a. a ≡ applied db.old (Red terms.now right.now sets.now)) }
    ensures fault { (clause : Option (List Lit)) → IfErr result (IsFault db.old (Red terms.now right.now sets.now) clause) }
    ensures unchanged { OnErr result (db.new ≡ db.old) }
{
    match red::claim_of(db, terms, right, sets) {
        Err(fault) => Err(fault),
        Ok(claim) => {
            let id = db.grow(claim)?;
            Ok(Applied::Id(id))
        }
    }
}

// Deletes constraints.
fn delete(db: &mut Database, ids: &[u64]) -> Result<Applied, RuleFault>
    requires { IsSpelled (Del ids.now) }
    ensures allowed { (clause : Option (List Lit)) → OnOk result (Allowed db.old (Del ids.now) clause db.new) }
    ensures given { IfOk result (λ a. a ≡ applied db.old (Del ids.now)) }
    ensures fault { (clause : Option (List Lit)) → IfErr result (IsFault db.old (Del ids.now) clause) }
    ensures unchanged { OnErr result (db.new ≡ db.old) }
{
    match del::test(db, ids) {
        Err(fault) => Err(fault),
        Ok(()) => {
            db.remove(ids);
            Ok(Applied::Done)
        }
    }
}

// Puts a clause out, as the next one of the CNF.
fn put_out(db: &mut Database, id: u64, next: Option<&Clause>) -> Result<Applied, RuleFault>
    ensures allowed { OnOk result (Allowed db.old (Out id) (option_copied next.entry) db.new) }
    ensures given { IfOk result (λ a. a ≡ applied db.old (Out id)) }
    ensures fault { IfErr result (IsFault db.old (Out id) (option_copied next.entry)) }
    ensures unchanged { OnErr result (db.new ≡ db.old) }
{
    match out::test(db, id, next) {
        Err(fault) => Err(fault),
        Ok(()) => {
            db.mark(id);
            Ok(Applied::Done)
        }
    }
}

/// Applies a step of a rule if it is allowed (reverse unit propagation, Goldberg and Novikov 2003; redundance, Gocht and Nordström 2021;
/// operations in postfix notation, Gocht et al. 2022). The next clause is the one that `out` has to give. After a fault the database is
/// as it was.
pub fn apply(db: &mut Database, step: &Step, next: Option<&Clause>) -> Result<Applied, RuleFault>
    requires rule { IsRule step.now }
    requires spelled { IsSpelled step.now }
    // A step that is accepted is allowed, and the database is the one that it leaves.
    ensures allowed { OnOk result (Allowed db.old step.now (option_copied next.entry) db.new) }
    // The answer is the id of the constraint that was added, if one was.
    ensures given { IfOk result (λ a. a ≡ applied db.old step.now) }
    // A fault is `NoMemory`, or the first cause that applies why the step is not allowed.
    ensures fault { IfErr result (IsFault db.old step.now (option_copied next.entry)) }
    // After a fault the database is as it was.
    ensures unchanged { OnErr result (db.new ≡ db.old) }
{
    match step {
        Step::Pol(ops) => add_sum(db, ops.as_slice()),
        Step::Rup { terms, right, ids } => {
            add_propagated(db, terms.as_slice(), right, ids.as_slice())
        }
        Step::Red { terms, right, sets } => {
            add_redundant(db, terms.as_slice(), right, sets.as_slice())
        }
        Step::Del(ids) => delete(db, ids.as_slice()),
        Step::Out { id } => put_out(db, *id, next),
        _ => Ok(Applied::Done),
    }
}
