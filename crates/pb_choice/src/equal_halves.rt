//! The halves of an equality, encoded one by one.
ghost use Rattle.std.specs.Prelude.{◌≡◌, ◌+◌};
ghost use Rattle.pb_family.specs.Handing.{HandsIfMemory};
ghost use Rattle.pb_family.specs.StepSinks.{HandsFrom};
ghost use Rattle.pb_choice.specs.declared.equal.EqualPlan.TheVariants.{Split};
ghost use Rattle.pb_choice.specs.inner.Ready.{MayDerive, MayEmit};
ghost use Rattle.pb_choice.specs.HalfPlans.{halves_clauses, halves_steps, plan_count, plan_fresh};

use crate::plans::{Counts, Plan};
use pb_family::{ClauseSink, SinkResult, StepSink};
use std::alloc::Global;

/// The ids of an equality's halves.
#[derive(Clone, Copy)]
pub struct HalfIds {
    pub low: u64,
    pub high: u64,
}

/// Returns the numbers of fresh variables and clauses of both halves together.
pub fn count_halves(lower: &Plan<'_>, upper: &Plan<'_>) -> Counts
    ensures fresh { result.fresh ≡ plan_fresh lower.now + plan_fresh upper.now }
    ensures clauses { result.clauses ≡ plan_count lower.now + plan_count upper.now }
{
    let one = lower.counts();
    let other = upper.counts();
    Counts {
        fresh: one.fresh + other.fresh,
        clauses: one.clauses + other.clauses,
    }
}

/// Emits the clauses of the lower half and then those of the upper one, whose fresh variables come after.
pub fn emit_halves<S: ClauseSink>(
    alloc: Global,
    lower: &Plan<'_>,
    upper: &Plan<'_>,
    first: u32,
    sink: &mut S,
) -> SinkResult
    requires ready { MayEmit first (Split lower.now upper.now) }
    ensures { HandsIfMemory (halves_clauses lower.now upper.now first) result (S.state sink.old) (S.state sink.new) }
{
    lower.emit(alloc, first, sink)?;
    let next = first + lower.counts().fresh as u32;
    upper.emit(alloc, next, sink)
}

/// Emits the steps of the lower half and then those of the upper one, which have the ids.
pub fn derive_halves<T: StepSink>(
    alloc: Global,
    lower: &Plan<'_>,
    upper: &Plan<'_>,
    first: u32,
    ids: HalfIds,
    sink: &mut T,
) -> SinkResult
    requires ready { MayDerive first ids.low ids.high (T.state sink.old).next (Split lower.now upper.now) }
    ensures { HandsFrom (halves_steps lower.now upper.now first ids.low ids.high) result (T.state sink.old) (T.state sink.new) }
{
    lower.derive(alloc, first, ids.low, sink)?;
    let next = first + lower.counts().fresh as u32;
    upper.derive(alloc, next, ids.high, sink)
}
