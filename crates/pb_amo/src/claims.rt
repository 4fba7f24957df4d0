//! The steps for each two of some literals.
ghost use Rattle.std.specs.Prelude.{◌<◌, ◌+◌, ◌^◌, length};
ghost use Rattle.pb_family.specs.StepSinks.{HandsSteps};
ghost use Rattle.pb_amo.specs.Pairwise.{pair_count};
ghost use Rattle.pb_amo.specs.PairwiseSteps.{pairwise_steps};
ghost use Rattle.pb_amo.specs.inner.Source.{source_literals};

use crate::source::Source;
use pb_family::{SinkResult, StepSink, derive_propagated};
use std::alloc::Global;

/// Hands over that each clause of two of the literals follows from the constraint with an id, and the clauses.
pub(crate) fn derive_pairs<T: StepSink>(
    alloc: Global,
    literals: &Source,
    id: u64,
    sink: &mut T,
) -> SinkResult
    requires few { length (source_literals literals.now) < 2 ^ 31 }
    requires room { (T.state sink.old).next + pair_count (length (source_literals literals.now)) < 2 ^ 62 }
    ensures { HandsSteps (pairwise_steps (source_literals literals.now) id (T.state sink.old).next) result (T.state sink.old) (T.state sink.new) }
{
    let count = literals.len();
    for i in 0..count {
        for j in i + 1..count {
            let (one, two) = literals.opposites(i, j);
            derive_propagated(alloc, &[id], &[one, two], sink)?;
        }
    }
    Ok(())
}
