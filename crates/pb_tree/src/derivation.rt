//! The derivation of clauses along a tree of halves.
ghost use Rattle.std.specs.Prelude.{◌≡◌, ◌≤◌, ◌<◌, ◌+◌, ◌*◌, ◌^◌, ℕ, List, length};
ghost use Rattle.pb_derive.specs.Justifications.{Justification};
ghost use Rattle.pb_family.specs.HandedJustifications.{HandsJustifications};
ghost use Rattle.pb_family.specs.StepSinks.{HandsFrom};
ghost use Rattle.pb_tree.specs.TreeSteps.{steps_along};
ghost use Rattle.pb_tree.specs.Walks.{fresh_over};

use crate::meanings::derive_meanings;
use crate::sum::TreeSum;
use pb_family::{SinkResult, StepSink, derive_deletions};
use std::alloc::Global;

/// Clauses of a sum that follow from what its fresh variables mean.
pub trait TreeClaims<V: TreeSum> {
    /// The sum.
    ghost sum: { Self → V };

    /// How the clauses follow, where the fresh variables' constraints have the ids from a number on.
    ghost given: { Self → ℕ → List Justification };

    /// The sum.
    fn sum(&self) -> &V
        ensures { result.now ≡ sum self.now };

    /// Hands over that the clauses follow, where the fresh variables' constraints have the ids from `id` on.
    fn claim<T: StepSink>(&self, alloc: Global, id: u64, sink: &mut T) -> SinkResult
        requires ids { id + 2 * fresh_over (V.scheme (sum self.now)) (V.all (sum self.now)) < 2 ^ 62 }
        requires room { (T.state sink.old).next + length (given self.now id) < 2 ^ 62 }
        ensures { HandsJustifications (given self.now id) result (T.state sink.old) (T.state sink.new) };
}

/// Hands over what the fresh variables mean, that the clauses follow, and that the reifications go.
pub fn derive_along<V: TreeSum, C: TreeClaims<V>, T: StepSink>(
    alloc: Global,
    of: &C,
    sink: &mut T,
) -> SinkResult
    requires low { (T.state sink.old).next ≤ 2 ^ 61 }
    requires few { (id : ℕ) → length (C.given of.now id) ≤ 7 * 2 ^ 58 }
    ensures { HandsFrom (steps_along (V.scheme (C.sum of.now)) (V.all (C.sum of.now)) (V.start (C.sum of.now)) (C.given of.now)) result (T.state sink.old) (T.state sink.new) }
{
    let base = sink.next_id();
    let fresh = derive_meanings(alloc, of.sum(), sink)?;
    of.claim(alloc, base, sink)?;
    derive_deletions(alloc, base, 2, fresh, sink)
}
