//! The clauses of a node, one after another.
ghost use Rattle.std.specs.Prelude.{◌≡◌, ◌<◌, [], ◌∷◌, All, length, slice_index, Contains};
ghost use Rattle.pb_family.specs.Handing.{Hands};
ghost use Rattle.pb_gentot.specs.inner.Nodes.{one_over, ones_over, sum_over, both_over, row_over, pairs_over, clauses_over};

use crate::merge::{Emitted, Merge};
use pb_base::{Failed, Lit};
use pb_family::ClauseSink;

/// The literals of the clause that a value of a part gives one of the node.
fn one_literals(node: &Merge, part: &Emitted, i: usize) -> (Lit, Lit)
    requires within { i < length part.now.values.items }
    requires has { Contains node.now.own.now.values.items (slice_index part.now.values.items i) }
    ensures { (result.0 ∷ result.1 ∷ []) ≡ one_over node.now part.now (slice_index part.now.values.items i) }
{
    (part.outputs.at(i).not(), node.literal(part.values[i]))
}

/// Hands over that each value of a part gives one of the node.
fn emit_ones<S: ClauseSink>(node: &Merge, part: &Emitted, sink: &mut S) -> Result<(), Failed>
    requires { All (Contains node.now.own.now.values.items) part.now.values.items }
    ensures { Hands (ones_over node.now part.now) result (S.state sink.old) (S.state sink.new) }
{
    for i in 0..part.values.len() {
        let (one, two) = one_literals(node, part, i);
        sink.clause(&[one, two])?;
    }
    Ok(())
}

/// The sum of two values, cut.
fn sum_of(node: &Merge, i: usize, j: usize) -> u128
    requires left { i < length node.now.left.now.values.items }
    requires right { j < length node.now.right.now.values.items }
    ensures { result ≡ sum_over node.now (slice_index node.now.left.now.values.items i) (slice_index node.now.right.now.values.items j) }
{
    (node.left.values[i] + node.right.values[j]).min(node.cap)
}

/// The literals of the clause that two values give their sum.
fn both_literals(node: &Merge, i: usize, j: usize) -> (Lit, Lit, Lit)
    requires left { i < length node.now.left.now.values.items }
    requires right { j < length node.now.right.now.values.items }
    ensures { (result.0 ∷ result.1 ∷ result.2 ∷ []) ≡ both_over node.now (slice_index node.now.left.now.values.items i) (slice_index node.now.right.now.values.items j) }
{
    (
        node.left.outputs.at(i).not(),
        node.right.outputs.at(j).not(),
        node.literal(sum_of(node, i, j)),
    )
}

/// Hands over that a value of the left and each of the right give their sum.
fn emit_row<S: ClauseSink>(node: &Merge, i: usize, sink: &mut S) -> Result<(), Failed>
    requires { i < length node.now.left.now.values.items }
    ensures { Hands (row_over node.now (slice_index node.now.left.now.values.items i)) result (S.state sink.old) (S.state sink.new) }
{
    for j in 0..node.right.values.len() {
        let (one, two, sum) = both_literals(node, i, j);
        sink.clause(&[one, two, sum])?;
    }
    Ok(())
}

/// Hands over that each two values of the parts give their sum.
fn emit_pairs<S: ClauseSink>(node: &Merge, sink: &mut S) -> Result<(), Failed>
    ensures { Hands (pairs_over node.now) result (S.state sink.old) (S.state sink.new) }
{
    for i in 0..node.left.values.len() {
        emit_row(node, i, sink)?;
    }
    Ok(())
}

/// Hands over a node's own clauses.
pub fn emit_node<S: ClauseSink>(node: &Merge, sink: &mut S) -> Result<(), Failed>
    ensures { Hands (clauses_over node.now) result (S.state sink.old) (S.state sink.new) }
{
    emit_ones(node, node.left, sink)?;
    emit_ones(node, node.right, sink)?;
    emit_pairs(node, sink)
}
