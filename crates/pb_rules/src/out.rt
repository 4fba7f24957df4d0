//! Clauses that are put out.
//!
//! The constraint mostly is a clause of two to four literals, each of which is among those of the clause that is put out: then the
//! clause follows. Only else is the clause's form made and compared.
ghost use Rattle.std.specs.Prelude.{OnOk, IfErr};
ghost use Rattle.std.specs.Option.{option_copied};
ghost use Rattle.pb_steps.specs.declared.step.Step.TheVariants.{Out};
ghost use Rattle.pb_steps.specs.Database.{marked};
ghost use Rattle.pb_steps.specs.Allowed.{Allowed};
ghost use Rattle.pb_rules.specs.Faults.{IsFault};

use crate::fault::RuleFault;
use pb_base::Clause;
use pb_database::Database;
use pb_steps::Denied;

/// Tests if the constraint with an id implies the next clause.
pub(crate) fn test(db: &Database, id: u64, next: Option<&Clause>) -> Result<(), RuleFault>
    ensures allowed { OnOk result (Allowed db.now (Out id) (option_copied next.entry) (marked db.now id)) }
    ensures fault { IfErr result (IsFault db.now (Out id) (option_copied next.entry)) }
{
    let Some(found) = db.constraint_at(id) else {
        return Err(RuleFault::Denied(Denied::UnknownId { id }))
    };
    let Some(clause) = next else {
        return Err(RuleFault::Denied(Denied::NoClause))
    };
    if !found.gives(db.alloc(), clause)? {
        return Err(RuleFault::Denied(Denied::NotImplied { id }));
    }
    Ok(())
}
