//! Propagation over the places of the variables that occur, so that tables over them are no longer than the constraints.
ghost use Rattle.std.specs.Prelude.{[], IfOk};
ghost use Rattle.std.specs.Bool.{MatchBool};
ghost use Rattle.pb_norm.specs.Propagation.{Conflict};

use crate::constraints::Constraints;
use crate::engine::{Engine, Outcome};
use crate::numbering::{Names, numbered_forms};
use pb_base::NoMemory;
use std::alloc::Global;

/// Whether propagation over constraints reaches a conflict. Memory and time go by the number of their terms, not by the numbers
/// of their variables.
pub fn is_conflicting(alloc: Global, forms: &Constraints) -> Result<bool, NoMemory>
    // The answer is true iff propagation over the constraints reaches a conflict.
    ensures { IfOk result (λ found. MatchBool found (Conflict forms.now []) (¬ Conflict forms.now [])) }
{
    let names = Names::of(alloc, forms, &[])?;
    let numbered = numbered_forms(alloc, &names, forms)?;
    let mut engine = Engine::over(alloc, names.len() as u32, numbered)?;
    match engine.propagate() {
        Outcome::Conflict { .. } => Ok(true),
        Outcome::Fixed => Ok(false),
    }
}
