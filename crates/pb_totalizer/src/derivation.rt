//! The derivation of a totalizer's clauses.
ghost use Rattle.std.specs.Prelude.{◌≡◌, ◌≤◌, ◌<◌, ◌+◌, ◌*◌, ◌^◌, IfOk};
ghost use Rattle.pb_norm.specs.BoundedSums.{sum_within};
ghost use Rattle.pb_norm.specs.Constraints.{weights};
ghost use Rattle.pb_family.specs.StepSinks.{HandsFrom, HandsSteps};
ghost use Rattle.pb_tree.specs.Tree.{tree_of};
ghost use Rattle.pb_tree.specs.Walks.{fresh_over};
ghost use Rattle.pb_totalizer.specs.TotalizerSteps.{totalizer_steps};
ghost use Rattle.pb_totalizer.specs.Totalizer.{totalizer};
ghost use Rattle.pb_totalizer.specs.declared.phase.Phase.TheVariants.{Clauses};
ghost use Rattle.pb_totalizer.specs.inner.Phases.{phase_ids, phase_steps};
ghost use Rattle.pb_totalizer.specs.inner.Roots.{clauses_within, root_within};

use crate::along::{Along, derive_along_tree};
use crate::phase::Phase;
use crate::root::{Root, derive_root, derive_sums};
use crate::whole::Whole;
use pb_family::{SinkResult, StepSink, derive_deletions};
use std::alloc::Global;

// Hands over the steps of all nodes in a phase, and gives how many fresh variables there are.
fn derive_all<T: StepSink>(
    alloc: Global,
    whole: &Whole,
    id: u64,
    phase: Phase,
    sink: &mut T,
) -> SinkResult<u64>
    requires ids { id + 2 * fresh_over (totalizer whole.now.bound) whole.now.terms.now < 2 ^ 62 }
    requires given { 1 ≤ (T.state sink.old).next }
    requires room { (T.state sink.old).next + phase_ids phase whole.now.bound (tree_of (weights whole.now.terms.now)) < 2 ^ 62 }
    ensures hands { HandsFrom (phase_steps phase whole.now.bound (tree_of (weights whole.now.terms.now)) whole.now.first id) result (T.state sink.old) (T.state sink.new) }
    ensures fresh { IfOk result (λ fresh. fresh ≡ fresh_over (totalizer whole.now.bound) whole.now.terms.now) }
{
    let along = Along { whole, id, phase };
    let all = derive_along_tree(alloc, &along, whole.terms, 0, sink)?;
    Ok(all.next)
}

// Hands over the clauses of all nodes, and that of the root.
fn derive_clauses<T: StepSink>(
    alloc: Global,
    whole: &Whole,
    id: u64,
    root: &Root,
    sink: &mut T,
) -> SinkResult
    requires ids { id + 2 * fresh_over (totalizer whole.now.bound) whole.now.terms.now < 2 ^ 62 }
    requires small { root.now.bound < 2 ^ 62 }
    requires given { 1 ≤ (T.state sink.old).next }
    requires room { (T.state sink.old).next + (phase_ids Clauses whole.now.bound (tree_of (weights whole.now.terms.now)) + 1) < 2 ^ 62 }
    ensures { HandsFrom (clauses_within whole.now.bound (tree_of (weights whole.now.terms.now)) whole.now.first id root.now) result (T.state sink.old) (T.state sink.new) }
{
    derive_all(alloc, whole, id, Phase::Clauses, sink)?;
    derive_root(alloc, root, sink)
}

// Hands over all that follows from what the fresh variables mean, whose constraints have the ids from `id` on, and from the sum's own
// constraint.
fn derive_within<T: StepSink>(
    alloc: Global,
    whole: &Whole,
    id: u64,
    own: u64,
    sink: &mut T,
) -> SinkResult
    requires given { 1 ≤ id }
    requires known { id + 2 * fresh_over (totalizer whole.now.bound) whole.now.terms.now ≤ (T.state sink.old).next }
    requires low { (T.state sink.old).next ≤ 2 ^ 61 + 2 ^ 33 }
    ensures { HandsFrom (root_within whole.now.bound (tree_of (weights whole.now.terms.now)) whole.now.first own id) result (T.state sink.old) (T.state sink.new) }
{
    let start = sink.next_id();
    let root = derive_sums(alloc, whole, id, own, sink)?;
    let end = sink.next_id();
    derive_clauses(alloc, whole, id, &root, sink)?;
    derive_deletions(alloc, start, 1, end - start, sink)
}

/// Hands over the whole derivation, where `id` is that of the sum's own constraint.
pub fn derive_totalizer<T: StepSink>(
    alloc: Global,
    whole: &Whole,
    id: u64,
    sink: &mut T,
) -> SinkResult
    requires given { 1 ≤ (T.state sink.old).next }
    requires low { (T.state sink.old).next ≤ 2 ^ 61 }
    ensures { HandsSteps (totalizer_steps (sum_within whole.now.terms.now whole.now.bound) whole.now.first id (T.state sink.old).next) result (T.state sink.old) (T.state sink.new) }
{
    let base = sink.next_id();
    let fresh = derive_all(alloc, whole, base, Phase::Meanings, sink)?;
    derive_within(alloc, whole, base, id, sink)?;
    derive_deletions(alloc, base, 2, fresh, sink)
}
