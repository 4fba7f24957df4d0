//! The clauses of a node, by the constraints that they follow from.
ghost use Rattle.std.specs.Prelude.{◌≡◌, ◌<◌, ◌+◌, ◌^◌, ◌∷◌, [], All, Contains, length, slice_index};
ghost use Rattle.pb_family.specs.HandedJustifications.{HandsJustifications};
ghost use Rattle.pb_family.specs.Listed.{listed};
ghost use Rattle.pb_gentot.specs.inner.Ids.{HasIds, ids_at};
ghost use Rattle.pb_gentot.specs.inner.Sources.{one_at, ones_given, sum_at, both_at, row_given, pairs_given, node_given};

use crate::node_ids::{Handed, NodeIds, Source};
use pb_base::Term;
use pb_family::{SinkResult, StepSink, derive_by};
use std::alloc::Global;

/// The id of the first constraint of the value at a place, if it has one.
pub fn first_id(source: Source, place: usize) -> Option<u64>
    requires { HasIds source place }
    ensures { listed result ≡ ids_at source place }
{
    match source {
        Source::Leaf => None,
        Source::Fresh(id) => Some(id + 2 * place as u64),
    }
}

/// That a value of a part gives one of the node.
fn derive_one<T: StepSink>(
    alloc: Global,
    node: &NodeIds,
    part: &Handed,
    place: usize,
    others: &[Term],
    sink: &mut T,
) -> SinkResult
    requires within { place < length part.now.values.items }
    requires has { Contains node.now.own.now.values.items (slice_index part.now.values.items place) }
    requires few { (T.state sink.old).next + 1 < 2 ^ 62 }
    ensures { HandsJustifications (one_at node.now part.now others.now place ∷ []) result (T.state sink.old) (T.state sink.new) }
{
    let second = node.second(part.values[place]);
    let first = first_id(part.source, place);
    derive_by(alloc, first, None, second, others, sink)
}

/// That each value of a part gives one of the node.
fn derive_ones<T: StepSink>(
    alloc: Global,
    node: &NodeIds,
    part: &Handed,
    others: &[Term],
    sink: &mut T,
) -> SinkResult
    requires has { All (Contains node.now.own.now.values.items) part.now.values.items }
    requires few { (T.state sink.old).next + length part.now.values.items < 2 ^ 62 }
    ensures { HandsJustifications (ones_given node.now part.now others.now) result (T.state sink.old) (T.state sink.new) }
{
    for place in 0..part.values.len() {
        derive_one(alloc, node, part, place, others, sink)?;
    }
    Ok(())
}

/// The sum of two values, cut.
fn sum_of(node: &NodeIds, i: usize, j: usize) -> u128
    requires left { i < length node.now.left.now.values.items }
    requires right { j < length node.now.right.now.values.items }
    ensures { result ≡ sum_at node.now i j }
{
    (node.left.values[i] + node.right.values[j]).min(node.cap)
}

/// That two values give their sum.
fn derive_both<T: StepSink>(
    alloc: Global,
    node: &NodeIds,
    i: usize,
    j: usize,
    sink: &mut T,
) -> SinkResult
    requires left { i < length node.now.left.now.values.items }
    requires right { j < length node.now.right.now.values.items }
    requires few { (T.state sink.old).next + 1 < 2 ^ 62 }
    ensures { HandsJustifications (both_at node.now i j ∷ []) result (T.state sink.old) (T.state sink.new) }
{
    let left = first_id(node.left.source, i);
    let right = first_id(node.right.source, j);
    let second = node.second(sum_of(node, i, j));
    derive_by(alloc, left, right, second, &[], sink)
}

/// That a value of the left and each of the right give their sum.
fn derive_row<T: StepSink>(alloc: Global, node: &NodeIds, i: usize, sink: &mut T) -> SinkResult
    requires within { i < length node.now.left.now.values.items }
    requires few { (T.state sink.old).next + length node.now.right.now.values.items < 2 ^ 62 }
    ensures { HandsJustifications (row_given node.now i) result (T.state sink.old) (T.state sink.new) }
{
    for j in 0..node.right.values.len() {
        derive_both(alloc, node, i, j, sink)?;
    }
    Ok(())
}

/// That each two values of the parts give their sum.
fn derive_pairs<T: StepSink>(alloc: Global, node: &NodeIds, sink: &mut T) -> SinkResult
    requires { (T.state sink.old).next + length (pairs_given node.now) < 2 ^ 62 }
    ensures { HandsJustifications (pairs_given node.now) result (T.state sink.old) (T.state sink.new) }
{
    for i in 0..node.left.values.len() {
        derive_row(alloc, node, i, sink)?;
    }
    Ok(())
}

/// A node's own clauses, over the leaves of its two parts.
pub fn derive_node<T: StepSink>(
    alloc: Global,
    node: &NodeIds,
    lefts: &[Term],
    rights: &[Term],
    sink: &mut T,
) -> SinkResult
    requires { (T.state sink.old).next + length (node_given node.now lefts.now rights.now) < 2 ^ 62 }
    ensures { HandsJustifications (node_given node.now lefts.now rights.now) result (T.state sink.old) (T.state sink.new) }
{
    derive_ones(alloc, node, node.left, rights, sink)?;
    derive_ones(alloc, node, node.right, lefts, sink)?;
    derive_pairs(alloc, node, sink)
}
