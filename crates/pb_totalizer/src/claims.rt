//! A clause from a node's parts to its outputs, by the constraints that it follows from.
ghost use Rattle.std.specs.Prelude.{◌≡◌, ◌≤◌, ◌<◌, ◌+◌, ◌^◌, ◌∷◌, []};
ghost use Rattle.pb_norm.specs.BoundedSums.{vars_of};
ghost use Rattle.pb_norm.specs.Constraints.{weights};
ghost use Rattle.pb_family.specs.HandedJustifications.{HandsJustifications};
ghost use Rattle.pb_family.specs.Listed.{listed};
ghost use Rattle.pb_totalizer.specs.inner.Numbers.{AreSummed};
ghost use Rattle.pb_totalizer.specs.inner.Sources.{some_ids, pair_weakened, pair_beside};

use crate::node_ids::{NodeIds, Source};
use pb_base::Term;
use pb_family::{SinkResult, StepSink, derive_by};
use std::alloc::Global;

/// The id of the first constraint of a number's output, if it has one.
pub fn first_id(source: Source, number: u64) -> Option<u64>
    requires { number < 2 ^ 33 }
    ensures { listed result ≡ some_ids source number }
{
    if number == 0 {
        return None;
    }
    match source {
        Source::Leaf => None,
        Source::Fresh(row) => Some(row.first + 2 * (number - 1)),
    }
}

/// The leaves of the part that has no number, if there is one.
fn leaves_beside<'a>(node: &NodeIds<'a>, i: u64, j: u64) -> &'a [Term]
    requires { 1 ≤ i + j }
    ensures { vars_of (weights result.now) ≡ pair_weakened node.now i j }
{
    if i == 0 {
        node.lefts
    } else if j == 0 {
        node.rights
    } else {
        &node.lefts[..0]
    }
}

/// That where i of the left are true and j of the right, i + j are.
pub fn derive_pair<T: StepSink>(
    alloc: Global,
    node: &NodeIds,
    i: u64,
    j: u64,
    sink: &mut T,
) -> SinkResult
    requires pair { AreSummed node.now.left.count node.now.right.count node.now.cap i j }
    requires few { (T.state sink.old).next + 1 < 2 ^ 62 }
    ensures { HandsJustifications (pair_beside node.now i j ∷ []) result (T.state sink.old) (T.state sink.new) }
{
    let left = first_id(node.left.source, i);
    let right = first_id(node.right.source, j);
    let own = node.own + 2 * (i + j - 1) + 1;
    derive_by(alloc, left, right, own, leaves_beside(node, i, j), sink)
}
