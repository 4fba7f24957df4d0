//! Lines that compute a constraint.
ghost use Rattle.std.specs.Prelude.{◌≡◌, ◌<◌, ◌^◌, [], ◌∷◌, pos, IfOk};
ghost use Rattle.pb_steps.specs.declared.op.PolOp.TheVariants.{Div, Mul};
ghost use Rattle.pb_steps.specs.declared.step.Step.TheVariants.{Pol};
ghost use Rattle.pb_family.specs.StepSinks.{HandsSteps};

use crate::sink::SinkResult;
use crate::step_sink::StepSink;
use pb_steps::{PolOp, PolOps, Step};
use std::alloc::{AllocError, Global};

// The line of some operations.
fn line_of(alloc: Global, ops: &[PolOp]) -> Result<Step, AllocError>
    ensures { IfOk result (λ step. step ≡ Pol ops.now) }
{
    let mut all = Vec::new(alloc);
    all.extend_from_slice(ops)?;
    Ok(Step::Pol(PolOps::from_vec(all)))
}

/// Hands over the line of some operations.
pub fn derive_line<T: StepSink>(alloc: Global, ops: &[PolOp], sink: &mut T) -> SinkResult
    requires few { (T.state sink.old).next < 2 ^ 62 }
    // The `pol` line of the operations was emitted, or a first part until the sink failed or memory ran out.
    ensures { HandsSteps (Pol ops.now ∷ []) result (T.state sink.old) (T.state sink.new) }
{
    let step = line_of(alloc, ops)?;
    sink.step(&step)
}

/// Multiplies by a number.
pub fn times(number: u64) -> PolOp
    // It multiplies by the number.
    ensures { result ≡ Mul (pos number) }
{
    PolOp::Mul(number as i128)
}

/// Divides by a number.
pub fn over(number: u64) -> PolOp
    // It divides by the number.
    ensures { result ≡ Div (pos number) }
{
    PolOp::Div(number as i128)
}
