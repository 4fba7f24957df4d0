//! Steps that delete constraints.
ghost use Rattle.std.specs.Prelude.{◌≡◌, ◌<◌, ◌+◌, ◌*◌, ◌^◌, ◌++◌, [], ◌∷◌, IfOk};
ghost use Rattle.std.specs.List.{range_with_len};
ghost use Rattle.pb_steps.specs.declared.step.Step.TheVariants.{Del};
ghost use Rattle.pb_derive.specs.Deletions.{deletion_steps};
ghost use Rattle.pb_family.specs.StepSinks.{HandsSteps};

use crate::sink::SinkResult;
use crate::step_sink::StepSink;
use pb_base::Ids;
use pb_steps::Step;
use std::alloc::{AllocError, Global};

/// Adds so many neighbouring ids.
pub fn push_ids(ids: &mut Vec<u64>, from: u64, count: u64) -> Result<(), AllocError>
    requires fits { from + count < 2 ^ 64 }
    // On success the ids were appended.
    ensures { IfOk result (λ _. ids.new.items ≡ ids.old.items ++ range_with_len from count) }
{
    for next in from..from + count {
        ids.push(next)?;
    }
    Ok(())
}

// So many neighbouring ids go.
fn deletion_step(alloc: Global, id: u64, width: u64) -> Result<Step, AllocError>
    requires fits { id + width < 2 ^ 64 }
    ensures { IfOk result (λ step. step ≡ Del (range_with_len id width)) }
{
    let mut ids = Vec::new(alloc);
    push_ids(&mut ids, id, width)?;
    Ok(Step::Del(Ids::from_vec(ids)))
}

/// Hands over that some ids go.
pub fn derive_deleted<T: StepSink>(ids: Vec<u64>, sink: &mut T) -> SinkResult
    requires few { (T.state sink.old).next < 2 ^ 62 }
    // The line that deletes the ids was emitted, or a first part until the sink failed or memory ran out.
    ensures { HandsSteps (Del ids.items ∷ []) result (T.state sink.old) (T.state sink.new) }
{
    sink.step(&Step::Del(Ids::from_vec(ids)))
}

/// Hands over that so many neighbouring ids go.
pub fn derive_deletion<T: StepSink>(alloc: Global, id: u64, width: u64, sink: &mut T) -> SinkResult
    requires fits { id + width < 2 ^ 64 }
    requires few { (T.state sink.old).next < 2 ^ 62 }
    // The line that deletes neighbouring ids was emitted, or a first part until the sink failed or memory ran out.
    ensures { HandsSteps (Del (range_with_len id width) ∷ []) result (T.state sink.old) (T.state sink.new) }
{
    let step = deletion_step(alloc, id, width)?;
    sink.step(&step)
}

/// Hands over that neighbouring ids go, as many in each of `count` steps.
pub fn derive_deletions<T: StepSink>(
    alloc: Global,
    id: u64,
    width: u64,
    count: u64,
    sink: &mut T,
) -> SinkResult
    requires fits { id + width * count < 2 ^ 64 }
    requires few { (T.state sink.old).next < 2 ^ 62 }
    // The lines that delete neighbouring ids, as many in each, were emitted, or the first ones until the sink failed or memory ran out.
    ensures { HandsSteps (deletion_steps width id count) result (T.state sink.old) (T.state sink.new) }
{
    for k in 0..count {
        derive_deletion(alloc, id + width * k, width, sink)?;
    }
    Ok(())
}
