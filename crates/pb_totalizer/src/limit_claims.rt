//! A clause from a node's outputs to its parts, by the constraints that it follows from.
ghost use Rattle.std.specs.Prelude.{◌≡◌, ◌≤◌, ◌<◌, ◌+◌, ◌^◌, ◌∷◌, []};
ghost use Rattle.pb_norm.specs.BoundedSums.{vars_of};
ghost use Rattle.pb_norm.specs.Constraints.{weights};
ghost use Rattle.pb_family.specs.HandedJustifications.{HandsJustifications};
ghost use Rattle.pb_totalizer.specs.inner.LimitSources.{seconds_from, ids_after, limit_weakened, limit_beside};
ghost use Rattle.pb_totalizer.specs.inner.Numbers.{AreLimited};
ghost use Rattle.pb_family.specs.Listed.{listed};

use crate::node_ids::{Handed, NodeIds, Source};
use pb_base::Term;
use pb_family::{SinkResult, StepSink, derive_by};
use std::alloc::Global;

/// The id of the second constraint of a number's output, if it has one.
pub fn second_id(source: Source, number: u64) -> Option<u64>
    requires some { 1 ≤ number }
    requires small { number < 2 ^ 33 }
    ensures { listed result ≡ seconds_from source number }
{
    match source {
        Source::Leaf => None,
        Source::Fresh(row) => Some(row.first + 2 * (number - 1) + 1),
    }
}

/// That of the output after an index, if there is one.
fn id_after(part: &Handed, index: u64) -> Option<u64>
    requires { index < 2 ^ 32 }
    ensures { listed result ≡ ids_after part.now.source part.now.count index }
{
    if index < part.count {
        second_id(part.source, index + 1)
    } else {
        None
    }
}

/// The leaves of the part that is past its last output, if there is one.
fn leaves_after<'a>(node: &NodeIds<'a>, i: u64, j: u64) -> &'a [Term]
    requires { AreLimited node.now.left.count node.now.right.count node.now.count i j }
    ensures { vars_of (weights result.now) ≡ limit_weakened node.now i j }
{
    if node.left.count <= i {
        node.lefts
    } else if node.right.count <= j {
        node.rights
    } else {
        &node.lefts[..0]
    }
}

/// That where at most i of the left are true and at most j of the right, no more than i + j are.
pub fn derive_limit<T: StepSink>(
    alloc: Global,
    node: &NodeIds,
    i: u64,
    j: u64,
    sink: &mut T,
) -> SinkResult
    requires pair { AreLimited node.now.left.count node.now.right.count node.now.count i j }
    requires few { (T.state sink.old).next + 1 < 2 ^ 62 }
    ensures { HandsJustifications (limit_beside node.now i j ∷ []) result (T.state sink.old) (T.state sink.new) }
{
    let left = id_after(&node.left, i);
    let right = id_after(&node.right, j);
    let own = node.own + 2 * (i + j);
    derive_by(alloc, left, right, own, leaves_after(node, i, j), sink)
}
