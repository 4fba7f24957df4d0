//! The clauses of a generalized totalizer, part by part.
ghost use Rattle.std.specs.Prelude.{◌≡◌, ◌≤◌, ◌<◌, ◌+◌, ◌^◌, All, length, Contains, IfOk};
ghost use Rattle.pb_norm.specs.Constraints.{weights};
ghost use Rattle.pb_family.specs.Handing.{HandsIfMemory};
ghost use Rattle.pb_tree.specs.Tree.{tree_of};
ghost use Rattle.pb_tree.specs.Scheme.{values, clauses_of, tree_clauses};
ghost use Rattle.pb_gentot.specs.inner.Parts.{IsEmitted, IsMadeOver, node_values, clauses_over_parts};
ghost use Rattle.pb_gentot.specs.Generalized.{generalized};

use crate::emission::emit_node;
use crate::leaf::leaf_values;
use crate::merge::{Emitted, Merge};
use crate::outputs::{Outputs, place_in};
use crate::ranked::ranked_over;
use crate::whole::Whole;
use pb_base::Term;
use pb_family::{ClauseSink, SinkFault, SinkResult, sink_result};
use pb_tree::{Parts, Placed, Walk, walk_along};
use std::alloc::Global;

/// Hands over a node's own clauses, over two parts.
fn emit_over<S: ClauseSink>(
    alloc: Global,
    left: &Emitted,
    right: &Emitted,
    first: u32,
    cap: u128,
    sink: &mut S,
) -> SinkResult<Emitted>
    requires left { All (λ u. u ≤ cap) left.now.values.items }
    requires right { All (λ v. v ≤ cap) right.now.values.items }
    requires few { cap < 2 ^ 101 }
    requires low { 1 ≤ first }
    requires fits { first + length (node_values cap left.now right.now) ≤ 2 ^ 31 }
    ensures hands { HandsIfMemory (clauses_over_parts cap first left.now right.now) result (S.state sink.old) (S.state sink.new) }
    ensures made { IfOk result (IsMadeOver cap first left.now right.now) }
{
    let lefts = left.values.as_slice();
    let rights = right.values.as_slice();
    let own = ranked_over(alloc, lefts, rights, cap)?;
    let node = Merge {
        left,
        right,
        own: &own,
        first,
        cap,
    };
    emit_node(&node, sink)?;
    Ok(Emitted {
        values: own.values,
        outputs: Outputs::Fresh(first),
    })
}

/// The clauses along the tree of a generalized totalizer.
#[derive(Clone, Copy)]
struct Clauses<'a> {
    whole: &'a Whole<'a>,
}

impl<'a, S: ClauseSink> Walk<S> for Clauses<'a> {
    ghost use Rattle.std.specs.Prelude.{◌+◌, List};
    ghost use Rattle.pb_base.specs.declared.literal.Lit.{Lit};
    ghost use Rattle.pb_family.specs.Handing.{HandsIfMemory};
    ghost use Rattle.pb_tree.specs.Scheme.{own_of};
    ghost use Rattle.pb_tree.specs.Walks.{fresh_over};
    ghost use Rattle.pb_tree.proofs.HandingLaws.{memory_then, memory_stop};
    ghost use Rattle.pb_gentot.specs.Generalized.{generalized};
    ghost use Rattle.pb_gentot.specs.inner.Parts.{IsEmitted};

    type Part = Emitted;

    type Fault = SinkFault;

    ghost Item = { List Lit };

    ghost scheme = { λ w. generalized w.whole.now.bound };

    ghost most = { λ w. fresh_over (generalized w.whole.now.bound) w.whole.now.terms.now };

    ghost own = { λ w l r before. own_of (generalized w.whole.now.bound) l r (w.whole.now.first + before) };

    ghost hands = { λ clauses result old new. HandsIfMemory clauses result (S.state old) (S.state new) };

    ghost has_room = { λ n sink. Unit {0} };

    ghost leaves = { λ w ts before part. IsEmitted w.whole.now.bound ts (w.whole.now.first + before) part };

    fn leaf(&self, alloc: Global, terms: &[Term], before: u64) -> SinkResult<Placed<Emitted>> {
        let values = leaf_values(alloc, terms, self.whole.bound)?;
        let part = Emitted {
            values,
            outputs: Outputs::Single(terms[0].lit),
        };
        Ok(Placed { part, next: before })
    }

    fn node(
        &self,
        alloc: Global,
        parts: &Parts<Emitted>,
        sink: &mut S,
    ) -> SinkResult<Placed<Emitted>> {
        let first = self.whole.first + parts.next as u32;
        let part = emit_over(
            alloc,
            parts.left,
            parts.right,
            first,
            self.whole.bound + 1,
            sink,
        )?;
        let next = parts.next + part.values.len() as u64;
        Ok(Placed { part, next })
    }

    ghost then = { λ xs ys placed r a b c taken rest. memory_then xs ys r (S.state a) (S.state b) (S.state c) taken rest };

    ghost stops = { λ xs ys f a b part. memory_stop xs ys f (S.state a) (S.state b) part };

    ghost room_first = { λ m n a room. tt };

    ghost room_then = { λ xs n placed a b room taken. tt };
}

/// Hands over the clauses of all nodes.
pub fn emit_nodes<S: ClauseSink>(alloc: Global, whole: &Whole, sink: &mut S) -> SinkResult<Emitted>
    ensures hands { HandsIfMemory (clauses_of (generalized whole.now.bound) (tree_of (weights whole.now.terms.now)) whole.now.first) result (S.state sink.old) (S.state sink.new) }
    ensures emitted { IfOk result (IsEmitted whole.now.bound whole.now.terms.now whole.now.first) }
{
    let root = walk_along(alloc, &Clauses { whole }, whole.terms, 0, sink)?;
    Ok(root.part)
}

/// Hands over the clauses of a sum, with that of the root.
pub fn emit_whole<S: ClauseSink>(alloc: Global, whole: &Whole, sink: &mut S) -> SinkResult
    requires { Contains (values (generalized whole.now.bound) (tree_of (weights whole.now.terms.now))) (whole.now.bound + 1) }
    ensures { HandsIfMemory (tree_clauses (generalized whole.now.bound) (tree_of (weights whole.now.terms.now)) whole.now.first) result (S.state sink.old) (S.state sink.new) }
{
    let root = emit_nodes(alloc, whole, sink)?;
    let place = place_in(root.values.as_slice(), whole.bound + 1);
    let top = root.outputs.at(place);
    sink_result(sink.clause(&[top.not()]))
}
