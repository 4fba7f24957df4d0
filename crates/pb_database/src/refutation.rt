//! What propagation refutes.
ghost use Rattle.std.specs.Prelude.{◌≡◌, ◌∷◌, ◌++◌, IfOk, IfSome};
ghost use Rattle.std.specs.Option.{option_copied, option_to_list};
ghost use Rattle.pb_norm.specs.Constraints.{HasVarsWithin};
ghost use Rattle.pb_unit.specs.States.{standing};
ghost use Rattle.pb_database.specs.inner.Conflicts.{is_conflict};
ghost use Rattle.pb_database.specs.inner.Mirrors.{KeepsEngine};
ghost use Rattle.pb_database.specs.Refutations.{TellsConflict};

use pb_base::NoMemory;
use pb_norm::Linear;
use pb_unit::{Engine, Outcome};

/// True if propagation found a conflict.
pub(crate) fn is_conflict(outcome: Outcome) -> bool
    ensures { result ≡ is_conflict outcome }
{
    match outcome {
        Outcome::Conflict { .. } => true,
        Outcome::Fixed => false,
    }
}

// True if propagation over the engine's constraints and one more reaches a conflict. The constraint is deleted again.
fn is_refuted_with_one(engine: &mut Engine, more: &Linear) -> Result<bool, NoMemory>
    requires within { HasVarsWithin engine.old.vars more.now.terms }
    ensures kept { KeepsEngine engine.old engine.new }
    ensures answer { IfOk result (TellsConflict (more.now ∷ standing engine.old.places)) }
{
    let place = engine.add(more)?;
    let outcome = engine.propagate();
    engine.remove(place);
    Ok(is_conflict(outcome))
}

// True if propagation over the engine's constraints and two more reaches a conflict. The two are deleted again.
fn is_refuted_with_both(
    engine: &mut Engine,
    first: &Linear,
    second: &Linear,
) -> Result<bool, NoMemory>
    requires first { HasVarsWithin engine.old.vars first.now.terms }
    requires second { HasVarsWithin engine.old.vars second.now.terms }
    ensures kept { KeepsEngine engine.old engine.new }
    ensures answer { IfOk result (TellsConflict (first.now ∷ second.now ∷ standing engine.old.places)) }
{
    let place = engine.add(second)?;
    let found = is_refuted_with_one(engine, first);
    engine.remove(place);
    found
}

/// True if propagation over the engine's constraints and one or two more reaches a conflict. These are deleted again.
pub(crate) fn is_refuted_with(
    engine: &mut Engine,
    more: &Linear,
    second: Option<&Linear>,
) -> Result<bool, NoMemory>
    requires more { HasVarsWithin engine.old.vars more.now.terms }
    requires second { IfSome (option_copied second) (λ c. HasVarsWithin engine.old.vars c.terms) }
    ensures kept { KeepsEngine engine.old engine.new }
    ensures answer { IfOk result (TellsConflict (more.now ∷ option_to_list (option_copied second.entry) ++ standing engine.old.places)) }
{
    match second {
        Some(second) => is_refuted_with_both(engine, more, second),
        None => is_refuted_with_one(engine, more),
    }
}
