//! The last clause of a counter.
ghost use Rattle.std.specs.Prelude.{◌≡◌, ◌<◌, ◌+◌, ◌*◌, ◌^◌, [], ◌∷◌, ◌++◌, IfOk};
ghost use Rattle.std.specs.List.{range_with_len};
ghost use Rattle.pb_steps.specs.declared.step.Step.TheVariants.{Del, Out};
ghost use Rattle.pb_family.specs.StepSinks.{HandsFrom, HandsSteps};
ghost use Rattle.pb_counter.specs.CounterRows.{stop_line};

use pb_family::{SinkResult, StepSink, derive_deleted, derive_line, over, push_ids};
use pb_steps::{PolOp, Step};
use std::alloc::{AllocError, Global};

/// Hands over that a literal is false where the last place of the row before it is reached, by its total and that row's fronts.
pub fn derive_stop<T: StepSink>(
    alloc: Global,
    last: u64,
    fronts: u64,
    whole: u64,
    sink: &mut T,
) -> SinkResult
    requires fits { fronts + last < 2 ^ 63 }
    requires few { (T.state sink.old).next < 2 ^ 62 }
    requires small { last < 2 ^ 62 }
    ensures { HandsSteps (stop_line last fronts whole ∷ []) result (T.state sink.old) (T.state sink.new) }
{
    let ops = [
        PolOp::Push(whole),
        PolOp::Push(fronts + last),
        PolOp::Add,
        over(1 + last),
    ];
    derive_line(alloc, &ops, sink)
}

// The same, and puts it out.
fn derive_last_clause<T: StepSink>(
    alloc: Global,
    last: u64,
    fronts: u64,
    whole: u64,
    sink: &mut T,
) -> SinkResult
    requires fits { fronts + last < 2 ^ 63 }
    requires few { (T.state sink.old).next + 1 < 2 ^ 62 }
    requires small { last < 2 ^ 62 }
    ensures { HandsFrom (λ next. stop_line last fronts whole ∷ Out next ∷ []) result (T.state sink.old) (T.state sink.new) }
{
    let id = sink.next_id();
    derive_stop(alloc, last, fronts, whole, sink)?;
    sink.step(&Step::Out { id })
}

// The ids that are still held: those of the last row's order and fronts, and some others.
fn held(alloc: Global, order: u64, last: u64, others: &[u64]) -> Result<Vec<u64>, AllocError>
    requires { order + 2 * last + 1 < 2 ^ 62 }
    ensures { IfOk result (λ ids. ids.items ≡ range_with_len order (2 * last + 1) ++ others.now) }
{
    let mut ids = Vec::new(alloc);
    push_ids(&mut ids, order, 2 * last + 1)?;
    ids.extend_from_slice(others)?;
    Ok(ids)
}

// Hands over that they go.
fn derive_held_deleted<T: StepSink>(
    alloc: Global,
    order: u64,
    last: u64,
    others: &[u64],
    sink: &mut T,
) -> SinkResult
    requires fits { order + 2 * last + 1 < 2 ^ 62 }
    requires few { (T.state sink.old).next < 2 ^ 62 }
    ensures { HandsSteps (Del (range_with_len order (2 * last + 1) ++ others.now) ∷ []) result (T.state sink.old) (T.state sink.new) }
{
    derive_deleted(held(alloc, order, last, others)?, sink)
}

/// Hands over the last clause, by the total of its literal, and that all that is still held goes.
pub fn derive_last<T: StepSink>(
    alloc: Global,
    last: u64,
    order: u64,
    whole: u64,
    others: &[u64],
    sink: &mut T,
) -> SinkResult
    requires fits { order + 2 * last + 1 < 2 ^ 62 }
    requires few { (T.state sink.old).next + 1 < 2 ^ 62 }
    ensures { HandsFrom (λ next. stop_line last (order + last) whole ∷ Out next ∷ Del (range_with_len order (2 * last + 1) ++ others.now) ∷ []) result (T.state sink.old) (T.state sink.new) }
{
    derive_last_clause(alloc, last, order + last, whole, sink)?;
    derive_held_deleted(alloc, order, last, others, sink)
}
