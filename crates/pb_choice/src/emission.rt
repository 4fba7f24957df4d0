//! Clauses that no family has, handed over.
ghost use Rattle.std.specs.Prelude.{◌∷◌, [], map};
ghost use Rattle.pb_family.specs.Handing.{Hands, HandsIfMemory};
ghost use Rattle.pb_choice.specs.Clauses.{unit_clause};

use pb_base::{Failed, Lit, Lits};
use pb_family::{ClauseSink, SinkResult};

/// Emits unit clauses.
pub fn emit_units<S: ClauseSink>(units: &Lits, sink: &mut S) -> Result<(), Failed>
    ensures { Hands (map unit_clause units.now) result (S.state sink.old) (S.state sink.new) }
{
    for unit in units.as_slice() {
        sink.clause(&[*unit])?;
    }
    Ok(())
}

/// Emits one clause.
pub fn emit_one<S: ClauseSink>(clause: &[Lit], sink: &mut S) -> SinkResult
    ensures { HandsIfMemory (clause.now ∷ []) result (S.state sink.old) (S.state sink.new) }
{
    sink.clause(clause)?;
    Ok(())
}
