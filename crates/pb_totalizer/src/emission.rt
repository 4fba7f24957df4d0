//! The clauses of a totalizer, one after another.
ghost use Rattle.std.specs.Prelude.{◌≤◌, ◌∷◌, [], IfOk};
ghost use Rattle.pb_norm.specs.BoundedSums.{sum_within};
ghost use Rattle.pb_norm.specs.Constraints.{weights};
ghost use Rattle.pb_family.specs.Handing.{Hands};
ghost use Rattle.pb_tree.specs.Tree.{tree_of};
ghost use Rattle.pb_tree.specs.Scheme.{tree_clauses};
ghost use Rattle.pb_totalizer.specs.Exact.{exact_clauses};
ghost use Rattle.pb_totalizer.specs.Totalizer.{totalizer};
ghost use Rattle.pb_totalizer.specs.inner.NodeClauses.{clause_over, one_over, row_over, rows_over};
ghost use Rattle.pb_totalizer.specs.inner.Numbers.{AreSummed, GoTogether, most_by};
ghost use Rattle.pb_totalizer.specs.inner.Outputs.{AreOutputs, output_count};
ghost use Rattle.pb_totalizer.specs.laws.Polarity.{clauses_by, own_over};

use crate::limits::hand_over_limit;
use crate::node::Node;
use crate::numbers::{Counts, numbers};
use crate::outputs::{Outputs, Run};
use crate::polarity::{Direction, Polarity};
use crate::whole::Whole;
use pb_base::{Failed, Term};
use pb_family::{ClauseSink, derive_pair};
use pb_tree::{Parts, Placed, Walk, walk_along};
use std::alloc::Global;

/// Hands over that where i of the left and j of the right are true, i + j are.
fn hand_over<S: ClauseSink>(node: &Node, i: u64, j: u64, sink: &mut S) -> Result<(), Failed>
    requires { AreSummed (output_count node.now.left) (output_count node.now.right) node.now.cap i j }
    ensures { Hands (clause_over node.now i j ∷ []) result (S.state sink.old) (S.state sink.new) }
{
    let sum = node.own.at(i + j);
    if i == 0 {
        sink.clause(&[node.right.not_at(j), sum])
    } else if j == 0 {
        sink.clause(&[node.left.not_at(i), sum])
    } else {
        sink.clause(&[node.left.not_at(i), node.right.not_at(j), sum])
    }
}

/// Hands over the clause of a number of each part.
fn emit_number<S: ClauseSink>(
    direction: Direction,
    node: &Node,
    i: u64,
    j: u64,
    sink: &mut S,
) -> Result<(), Failed>
    requires { GoTogether direction (output_count node.now.left) (output_count node.now.right) (most_by direction node.now.cap (output_count node.now.own)) i j }
    ensures { Hands (one_over direction node.now i j ∷ []) result (S.state sink.old) (S.state sink.new) }
{
    match direction {
        Direction::Up => hand_over(node, i, j, sink),
        Direction::Down => hand_over_limit(node, i, j, sink),
    }
}

/// Hands over the clauses of one number of the left.
fn emit_row<S: ClauseSink>(
    direction: Direction,
    node: &Node,
    i: u64,
    sink: &mut S,
) -> Result<(), Failed>
    requires { i ≤ output_count node.now.left }
    ensures { Hands (row_over direction node.now i) result (S.state sink.old) (S.state sink.new) }
{
    let counts = Counts {
        left: node.left.count(),
        right: node.right.count(),
        own: node.own.count(),
        cap: node.cap,
    };
    let (low, count) = numbers(direction, &counts, i);
    for j in low..low + count {
        emit_number(direction, node, i, j, sink)?;
    }
    Ok(())
}

/// Hands over a node's clauses that lead one way.
fn emit_rows<S: ClauseSink>(direction: Direction, node: &Node, sink: &mut S) -> Result<(), Failed>
    ensures { Hands (rows_over direction node.now) result (S.state sink.old) (S.state sink.new) }
{
    for i in 0..node.left.count() + 1 {
        emit_row(direction, node, i, sink)?;
    }
    Ok(())
}

/// Hands over a node's own clauses.
fn emit_own<S: ClauseSink>(polarity: Polarity, node: &Node, sink: &mut S) -> Result<(), Failed>
    ensures { Hands (own_over polarity node.now) result (S.state sink.old) (S.state sink.new) }
{
    emit_rows(Direction::Up, node, sink)?;
    match polarity {
        Polarity::Up => Ok(()),
        Polarity::Both => emit_rows(Direction::Down, node, sink),
    }
}

/// The clauses along the tree of a totalizer.
#[derive(Clone, Copy)]
struct Clauses<'a> {
    whole: &'a Whole<'a>,
    polarity: Polarity,
}

impl<'a, S: ClauseSink> Walk<S> for Clauses<'a> {
    ghost use Rattle.std.specs.Prelude.{◌+◌, List};
    ghost use Rattle.pb_base.specs.declared.literal.Lit.{Lit};
    ghost use Rattle.pb_family.specs.Handing.{Hands};
    ghost use Rattle.pb_tree.specs.Walks.{fresh_over};
    ghost use Rattle.pb_tree.proofs.HandingLaws.{clauses_then, clauses_stop};
    ghost use Rattle.pb_totalizer.specs.Totalizer.{totalizer};
    ghost use Rattle.pb_totalizer.specs.inner.Outputs.{AreOutputs};
    ghost use Rattle.pb_totalizer.specs.laws.Polarity.{own_by};

    type Part = Outputs;

    type Fault = Failed;

    ghost Item = { List Lit };

    ghost scheme = { λ w. totalizer w.whole.now.bound };

    ghost most = { λ w. fresh_over (totalizer w.whole.now.bound) w.whole.now.terms.now };

    ghost own = { λ w l r before. own_by w.polarity w.whole.now.bound l r (w.whole.now.first + before) };

    ghost hands = { λ clauses result old new. Hands clauses result (S.state old) (S.state new) };

    ghost has_room = { λ n sink. Unit {0} };

    ghost leaves = { λ w ts before outputs. AreOutputs w.whole.now.bound ts (w.whole.now.first + before) outputs };

    fn leaf(&self, _alloc: Global, terms: &[Term], before: u64) -> Result<Placed<Outputs>, Failed> {
        Ok(Placed {
            part: Outputs::Single(terms[0].lit),
            next: before,
        })
    }

    fn node(
        &self,
        _alloc: Global,
        parts: &Parts<Outputs>,
        sink: &mut S,
    ) -> Result<Placed<Outputs>, Failed> {
        let cap = self.whole.bound + 1;
        let count = (parts.left.count() + parts.right.count()).min(cap);
        let first = self.whole.first + parts.next as u32;
        let node = Node {
            left: *parts.left,
            right: *parts.right,
            own: Outputs::Fresh(Run { first, count }),
            cap,
        };
        emit_own(self.polarity, &node, sink)?;
        Ok(Placed {
            part: node.own,
            next: parts.next + count,
        })
    }

    ghost then = { λ xs ys placed r a b c taken rest. clauses_then xs ys r (S.state a) (S.state b) (S.state c) taken rest };

    ghost stops = { λ xs ys f a b part. clauses_stop xs ys (S.state a) (S.state b) part };

    ghost room_first = { λ m n a room. tt };

    ghost room_then = { λ xs n placed a b room taken. tt };
}

/// Hands over the clauses of all nodes, and gives what the root leaves.
fn emit_nodes<S: ClauseSink>(
    alloc: Global,
    polarity: Polarity,
    whole: &Whole,
    sink: &mut S,
) -> Result<Placed<Outputs>, Failed>
    ensures hands { Hands (clauses_by polarity whole.now.bound (tree_of (weights whole.now.terms.now)) whole.now.first) result (S.state sink.old) (S.state sink.new) }
    ensures outputs { IfOk result (λ root. AreOutputs whole.now.bound whole.now.terms.now whole.now.first root.part) }
{
    walk_along(alloc, &Clauses { whole, polarity }, whole.terms, 0, sink)
}

/// Hands over the clauses of a totalizer, with that of the root.
pub fn emit_whole<S: ClauseSink>(alloc: Global, whole: &Whole, sink: &mut S) -> Result<(), Failed>
    ensures { Hands (tree_clauses (totalizer whole.now.bound) (tree_of (weights whole.now.terms.now)) whole.now.first) result (S.state sink.old) (S.state sink.new) }
{
    let root = emit_nodes(alloc, Polarity::Up, whole, sink)?;
    sink.clause(&[root.part.not_at(whole.bound + 1)])
}

/// Hands over the clauses of an exact sum, with those of the root.
pub fn emit_exact<S: ClauseSink>(alloc: Global, whole: &Whole, sink: &mut S) -> Result<(), Failed>
    ensures { Hands (exact_clauses (sum_within whole.now.terms.now whole.now.bound) whole.now.first) result (S.state sink.old) (S.state sink.new) }
{
    let root = emit_nodes(alloc, Polarity::Both, whole, sink)?;
    let least = [root.part.at(whole.bound)];
    let most = [root.part.not_at(whole.bound + 1)];
    derive_pair(&least, &most, sink)
}
