//! The clauses of a node, by the constraints that they follow from.
ghost use Rattle.std.specs.Prelude.{◌≤◌, ◌<◌, ◌+◌, ◌^◌, ◌∷◌, [], length};
ghost use Rattle.pb_family.specs.HandedJustifications.{HandsJustifications};
ghost use Rattle.pb_totalizer.specs.inner.ExactSources.{own_beside};
ghost use Rattle.pb_totalizer.specs.inner.Numbers.{GoTogether, most_by};
ghost use Rattle.pb_totalizer.specs.inner.Rows.{one_beside, row_beside, rows_beside};

use crate::claims::derive_pair;
use crate::limit_claims::derive_limit;
use crate::node_ids::NodeIds;
use crate::numbers::{Counts, numbers};
use crate::polarity::Direction;
use pb_family::{SinkResult, StepSink};
use std::alloc::Global;

/// The clause of a number of each part.
fn derive_number<T: StepSink>(
    alloc: Global,
    direction: Direction,
    node: &NodeIds,
    i: u64,
    j: u64,
    sink: &mut T,
) -> SinkResult
    requires together { GoTogether direction node.now.left.count node.now.right.count (most_by direction node.now.cap node.now.count) i j }
    requires few { (T.state sink.old).next + 1 < 2 ^ 62 }
    ensures { HandsJustifications (one_beside direction node.now i j ∷ []) result (T.state sink.old) (T.state sink.new) }
{
    match direction {
        Direction::Up => derive_pair(alloc, node, i, j, sink),
        Direction::Down => derive_limit(alloc, node, i, j, sink),
    }
}

/// The clauses of one number of the left.
fn derive_row<T: StepSink>(
    alloc: Global,
    direction: Direction,
    node: &NodeIds,
    i: u64,
    sink: &mut T,
) -> SinkResult
    requires within { i ≤ node.now.left.count }
    requires room { (T.state sink.old).next + length (row_beside direction node.now i) < 2 ^ 62 }
    ensures { HandsJustifications (row_beside direction node.now i) result (T.state sink.old) (T.state sink.new) }
{
    let counts = Counts {
        left: node.left.count,
        right: node.right.count,
        own: node.count,
        cap: node.cap,
    };
    let (low, count) = numbers(direction, &counts, i);
    for place in 0..count {
        derive_number(alloc, direction, node, i, low + place, sink)?;
    }
    Ok(())
}

/// A node's clauses that lead one way.
fn derive_rows<T: StepSink>(
    alloc: Global,
    direction: Direction,
    node: &NodeIds,
    sink: &mut T,
) -> SinkResult
    requires { (T.state sink.old).next + length (rows_beside direction node.now) < 2 ^ 62 }
    ensures { HandsJustifications (rows_beside direction node.now) result (T.state sink.old) (T.state sink.new) }
{
    for i in 0..node.left.count + 1 {
        derive_row(alloc, direction, node, i, sink)?;
    }
    Ok(())
}

/// A node's own clauses, from its parts to its outputs and back.
pub fn derive_own<T: StepSink>(alloc: Global, node: &NodeIds, sink: &mut T) -> SinkResult
    requires { (T.state sink.old).next + length (own_beside node.now) < 2 ^ 62 }
    ensures { HandsJustifications (own_beside node.now) result (T.state sink.old) (T.state sink.new) }
{
    derive_rows(alloc, Direction::Up, node, sink)?;
    derive_rows(alloc, Direction::Down, node, sink)
}
