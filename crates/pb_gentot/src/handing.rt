//! The clauses of a generalized totalizer's derivation, part by part.
ghost use Rattle.std.specs.Prelude.{◌<◌, ◌+◌, ◌*◌, ◌^◌, length, IfOk};
ghost use Rattle.pb_family.specs.HandedJustifications.{HandsJustifications};
ghost use Rattle.pb_tree.specs.Walks.{fresh_over};
ghost use Rattle.pb_gentot.specs.Generalized.{generalized};
ghost use Rattle.pb_gentot.specs.inner.Sources.{IsHanded, part_justifications};

use crate::claims::derive_node;
use crate::leaf::leaf_values;
use crate::node_ids::{Handed, NodeIds, Source};
use crate::ranked::ranked_over;
use crate::whole::Whole;
use pb_base::Term;
use pb_family::{SinkFault, SinkResult, StepSink};
use pb_tree::{Parts, Placed, Walk, walk_along};
use std::alloc::Global;

/// The clauses along the tree of a generalized totalizer, whose variables' constraints have the ids from `id` on.
#[derive(Clone, Copy)]
struct Claims<'a> {
    whole: &'a Whole<'a>,
    id: u64,
    ghost ids: { id + 2 * fresh_over (generalized whole.now.bound) whole.now.terms.now < 2 ^ 62 },
}

impl<'a, T: StepSink> Walk<T> for Claims<'a> {
    ghost use Rattle.std.specs.Prelude.{◌<◌, ◌+◌, ◌*◌, ◌^◌};
    ghost use Rattle.pb_derive.specs.Justifications.{Justification};
    ghost use Rattle.pb_family.specs.HandedJustifications.{HandsJustifications};
    ghost use Rattle.pb_family.proofs.FlatPieces.{justifications_then};
    ghost use Rattle.pb_tree.specs.TreeSteps.{pair_justifications};
    ghost use Rattle.pb_tree.specs.Walks.{fresh_over};
    ghost use Rattle.pb_tree.proofs.HandingLaws.{claimed_stop, less_claimed, claimed_room};
    ghost use Rattle.pb_gentot.specs.Generalized.{generalized};
    ghost use Rattle.pb_gentot.specs.GeneralizedSteps.{generalized_pairs};
    ghost use Rattle.pb_gentot.specs.inner.Sources.{IsHanded};

    type Part = Handed;

    type Fault = SinkFault;

    ghost Item = { Justification };

    ghost scheme = { λ w. generalized w.whole.now.bound };

    ghost most = { λ w. fresh_over (generalized w.whole.now.bound) w.whole.now.terms.now };

    ghost own = { λ w l r before. pair_justifications (generalized w.whole.now.bound) generalized_pairs l r before (w.id + 2 * before) };

    ghost hands = { λ justifications result old new. HandsJustifications justifications result (T.state old) (T.state new) };

    ghost has_room = { λ n sink. (T.state sink).next + n < 2 ^ 62 };

    ghost leaves = { λ w ts before part. IsHanded w.whole.now.bound ts (w.id + 2 * before) part };

    fn leaf(&self, alloc: Global, terms: &[Term], before: u64) -> SinkResult<Placed<Handed>> {
        let values = leaf_values(alloc, terms, self.whole.bound)?;
        let part = Handed {
            values,
            source: Source::Leaf,
        };
        Ok(Placed { part, next: before })
    }

    fn node(
        &self,
        alloc: Global,
        parts: &Parts<Handed>,
        sink: &mut T,
    ) -> SinkResult<Placed<Handed>> {
        let cap = self.whole.bound + 1;
        let id = self.id + 2 * parts.next;
        let lefts = parts.left.values.as_slice();
        let rights = parts.right.values.as_slice();
        let own = ranked_over(alloc, lefts, rights, cap)?;
        let node = NodeIds {
            left: parts.left,
            right: parts.right,
            own: &own,
            id,
            cap,
        };
        derive_node(alloc, &node, parts.lefts, parts.rights, sink)?;
        let next = parts.next + own.values.len() as u64;
        let part = Handed {
            values: own.values,
            source: Source::Fresh(id),
        };
        Ok(Placed { part, next })
    }

    ghost then = { λ xs ys placed r a b c taken rest. justifications_then r xs ys (T.state a) (T.state b) (T.state c) taken rest };

    ghost stops = { λ xs ys f a b part. claimed_stop xs (T.state a) (T.state b) ys f part };

    ghost room_first = { λ m n a room. less_claimed m n _ room };

    ghost room_then = { λ xs n placed a b room taken. claimed_room xs (T.state a) (T.state b) n room taken };
}

/// The clauses of all nodes, where the variables' constraints have the ids from `id` on.
pub fn derive_nodes<T: StepSink>(
    alloc: Global,
    whole: &Whole,
    id: u64,
    sink: &mut T,
) -> SinkResult<Handed>
    requires ids { id + 2 * fresh_over (generalized whole.now.bound) whole.now.terms.now < 2 ^ 62 }
    requires room { (T.state sink.old).next + length (part_justifications whole.now.bound whole.now.terms.now id) < 2 ^ 62 }
    ensures hands { HandsJustifications (part_justifications whole.now.bound whole.now.terms.now id) result (T.state sink.old) (T.state sink.new) }
    ensures handed { IfOk result (IsHanded whole.now.bound whole.now.terms.now id) }
{
    let root = walk_along(alloc, &Claims { whole, id }, whole.terms, 0, sink)?;
    Ok(root.part)
}
