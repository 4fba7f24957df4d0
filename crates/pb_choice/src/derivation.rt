//! The steps of clauses that no family has, handed over.
ghost use Rattle.std.specs.Prelude.{◌≤◌, ◌<◌, ◌+◌, ◌^◌, IsTrue, length};
ghost use Rattle.pb_steps.specs.Steps.{takes_id};
ghost use Rattle.pb_family.specs.Families.{VarsBelow};
ghost use Rattle.pb_family.specs.StepSinks.{HandsFrom};
ghost use Rattle.pb_family.specs.HandedJustifications.{HandsClaims};
ghost use Rattle.pb_choice.specs.ConstraintSteps.{reduced_steps, unit_claims};
ghost use Rattle.pb_choice.specs.Sums.{sum_fresh};
ghost use Rattle.pb_choice.specs.Chosen.{sum_at, treatment_at};

use crate::chosen::Chosen;
use pb_base::Lits;
use pb_family::{Derive, SinkResult, StepSink, derive_deletion, derive_propagated};
use pb_steps::Step;
use std::alloc::Global;

/// Emits for each unit the step that it follows from the constraint with an id, and its clause.
pub fn derive_units<T: StepSink>(alloc: Global, units: &Lits, id: u64, sink: &mut T) -> SinkResult
    requires room { (T.state sink.old).next + length units.now < 2 ^ 62 }
    ensures { HandsClaims (unit_claims id units.now) result (T.state sink.old) (T.state sink.new) }
{
    for unit in units.as_slice() {
        derive_propagated(alloc, &[id], &[*unit], sink)?;
    }
    Ok(())
}

/// Emits the step that gives a sum's constraint, the steps of its clauses, and the deletion of that constraint.
pub fn derive_reduced<T: StepSink>(
    alloc: Global,
    chosen: &Chosen,
    reduces: &Step,
    first: u32,
    sink: &mut T,
) -> SinkResult
    requires original { VarsBelow first (sum_at chosen.now).terms }
    requires low { 1 ≤ first }
    requires fits { first + sum_fresh (treatment_at chosen.now) (sum_at chosen.now) ≤ 2 ^ 31 }
    requires given { 1 ≤ (T.state sink.old).next }
    requires few { (T.state sink.old).next < 2 ^ 61 }
    requires takes { IsTrue (takes_id reduces.now) }
    ensures { HandsFrom (reduced_steps reduces.now (treatment_at chosen.now) (sum_at chosen.now) first) result (T.state sink.old) (T.state sink.new) }
{
    let own = sink.next_id();
    sink.step(reduces)?;
    chosen.derive(alloc, first, own, sink)?;
    derive_deletion(alloc, own, 1, sink)
}
