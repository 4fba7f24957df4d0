//! The steps of an equality that is encoded as one.
ghost use Rattle.std.specs.Prelude.{◌≡◌, ◌<◌, ◌^◌, [], ◌∷◌, IfOk};
ghost use Rattle.pb_family.specs.StepSinks.{HandsFrom, HandsSteps};
ghost use Rattle.pb_totalizer.specs.ExactSum.{exact_sum};
ghost use Rattle.pb_choice.specs.EqualitySteps.{joint_steps, quotient_step};
ghost use Rattle.pb_choice.specs.declared.equal.EqualPlan.TheVariants.{Joint};
ghost use Rattle.pb_choice.specs.inner.Ready.{MayDerive};

use crate::equal_halves::HalfIds;
use pb_family::{Pair, SinkResult, StepSink, derive_deletion};
use pb_steps::{PolOp, PolOps, Step};
use pb_totalizer::Exact;
use std::alloc::{AllocError, Global};

// Returns the step that divides all numbers of the constraint with an id.
fn quotient_step(alloc: Global, id: u64, coef: &i128) -> Result<Step, AllocError>
    ensures { IfOk result (λ step. step ≡ quotient_step id coef.now) }
{
    let mut ops = Vec::new(alloc);
    ops.push(PolOp::Push(id))?;
    ops.push(PolOp::Div(*coef))?;
    Ok(Step::Pol(PolOps::from_vec(ops)))
}

// Emits the step that divides all numbers of the constraint with an id.
fn derive_quotient<T: StepSink>(alloc: Global, id: u64, coef: &i128, sink: &mut T) -> SinkResult
    requires few { (T.state sink.old).next < 2 ^ 62 }
    ensures { HandsSteps (quotient_step id coef.now ∷ []) result (T.state sink.old) (T.state sink.new) }
{
    let step = quotient_step(alloc, id, coef)?;
    sink.step(&step)
}

/// Emits the division of both halves by their coefficient, the steps of the clauses, and the deletion of the quotients.
pub fn derive_joint<T: StepSink>(
    alloc: Global,
    exact: &Exact,
    coef: &i128,
    first: u32,
    ids: HalfIds,
    sink: &mut T,
) -> SinkResult
    requires ready { MayDerive first ids.low ids.high (T.state sink.old).next (Joint exact.now coef.now) }
    ensures { HandsFrom (joint_steps (exact_sum exact.now) coef.now first ids.low ids.high) result (T.state sink.old) (T.state sink.new) }
{
    let own = sink.next_id();
    derive_quotient(alloc, ids.low, coef, sink)?;
    derive_quotient(alloc, ids.high, coef, sink)?;
    exact.derive(alloc, first, own, own + 1, sink)?;
    derive_deletion(alloc, own, 2, sink)
}
