//! That of a node of a totalizer no fewer leaves are true than outputs.
ghost use Rattle.std.specs.Prelude.{◌≡◌, ◌<◌, ◌+◌, ◌*◌, ◌^◌, [], ◌∷◌, IfOk};
ghost use Rattle.pb_family.specs.StepSinks.{HandsSteps};
ghost use Rattle.pb_totalizer.specs.TotalizerSteps.{count_ops};
ghost use Rattle.pb_totalizer.specs.inner.Joints.{joint_sum};

use crate::joint::Joint;
use crate::side::push_giving;
use pb_family::{SinkResult, StepSink, over, times};
use pb_steps::{PolOp, PolOps, Step};
use std::alloc::{AllocError, Global};

// The operations by which no fewer inputs are true than outputs, which have their constraints from the id `row` on.
fn count_ops(alloc: Global, row: u64, last: u64) -> Result<Vec<PolOp>, AllocError>
    requires fits { row + 2 * last < 2 ^ 63 }
    ensures { IfOk result (λ ops. ops.items ≡ count_ops row last) }
{
    let mut ops = vec![in alloc; PolOp::Push(row)]?;
    for before in 0..last {
        ops.extend_from_slice(&[
            times(1 + before),
            PolOp::Push(row + 2 * (1 + before)),
            PolOp::Add,
            over(2 + before),
        ])?;
    }
    Ok(ops)
}

// The line by which no fewer leaves of a node are true than outputs, where those of its parts have ids.
fn sum_step(alloc: Global, node: &Joint, left: u64, right: u64) -> Result<Step, AllocError>
    ensures { IfOk result (λ step. step ≡ joint_sum node.now left right) }
{
    let mut ops = count_ops(alloc, node.row.id, node.row.last)?;
    push_giving(&mut ops, &node.left, left)?;
    push_giving(&mut ops, &node.right, right)?;
    Ok(Step::Pol(PolOps::from_vec(ops)))
}

/// Hands over that no fewer leaves are true than outputs, where the lines that say so of both parts have ids.
pub fn derive_sum<T: StepSink>(
    alloc: Global,
    node: &Joint,
    left: u64,
    right: u64,
    sink: &mut T,
) -> SinkResult
    requires few { (T.state sink.old).next < 2 ^ 62 }
    ensures { HandsSteps (joint_sum node.now left right ∷ []) result (T.state sink.old) (T.state sink.new) }
{
    let step = sum_step(alloc, node, left, right)?;
    sink.step(&step)
}
