//! What the fresh variables along a tree of halves mean.
ghost use Rattle.std.specs.Prelude.{◌≡◌, ◌≤◌, ◌<◌, ◌+◌, ◌*◌, ◌^◌, All, length, IfOk};
ghost use Rattle.pb_norm.specs.Constraints.{weight, weights};
ghost use Rattle.pb_family.specs.HandedJustifications.{HandsReifications};
ghost use Rattle.pb_tree.specs.Tree.{tree_of};
ghost use Rattle.pb_tree.specs.TreeSteps.{reifications_from, reifications};
ghost use Rattle.pb_tree.specs.Walks.{fresh_over};

use crate::sum::TreeSum;
use crate::walk::{Parts, Placed, Walk, walk_along};
use pb_base::Term;
use pb_family::{SinkFault, SinkResult, StepSink, derive_reification, fresh_at};
use std::alloc::Global;

/// What the outputs of a node mean, whose fresh variables are numbered from `first` on.
fn derive_outputs<V: TreeSum, T: StepSink>(
    alloc: Global,
    of: &V,
    terms: &[Term],
    values: &V::Values,
    first: u32,
    sink: &mut T,
) -> SinkResult
    requires light { weight (weights terms.now) < 2 ^ 100 }
    requires small { All (λ u. u < 2 ^ 101) (V.list values.now) }
    requires low { 1 ≤ first }
    requires fits { first + length (V.list values.now) ≤ 2 ^ 31 }
    requires few { (T.state sink.old).next + 2 * length (V.list values.now) ≤ 2 ^ 61 + 2 ^ 33 }
    ensures { HandsReifications (reifications_from first (weights terms.now) (V.list values.now)) result (T.state sink.old) (T.state sink.new) }
{
    for place in 0..of.count(values) {
        let var = fresh_at(first, place as usize).var;
        derive_reification(alloc, var, terms, of.value(values, place), sink)?;
    }
    Ok(())
}

/// What the fresh variables along the tree of a sum mean. A part leaves its values.
#[derive(Drop)]
struct Meanings<'a, V> {
    of: &'a V,
}

impl<'a, V: TreeSum, T: StepSink> Walk<T> for Meanings<'a, V> {
    ghost use Rattle.std.specs.Prelude.{◌≡◌, ◌≤◌, ◌+◌, ◌*◌, ◌^◌};
    ghost use Rattle.pb_norm.specs.Constraints.{weights};
    ghost use Rattle.pb_derive.specs.Reifications.{Reification};
    ghost use Rattle.pb_family.specs.HandedJustifications.{HandsReifications};
    ghost use Rattle.pb_tree.specs.Tree.{tree_of};
    ghost use Rattle.pb_tree.specs.Scheme.{values};
    ghost use Rattle.pb_tree.specs.TreeSteps.{own_reifications};
    ghost use Rattle.pb_tree.specs.Walks.{fresh_over};
    ghost use Rattle.pb_tree.specs.laws.Meant.{reifications_then, meant_stop, less_meant, meant_room};

    type Part = V::Values;

    type Fault = SinkFault;

    ghost Item = { Reification };

    ghost scheme = { λ w. V.scheme w.of.now };

    ghost most = { λ w. fresh_over (V.scheme w.of.now) (V.all w.of.now) };

    ghost own = { λ w l r before. own_reifications (V.scheme w.of.now) l r (V.start w.of.now + before) };

    ghost hands = { λ reifications result old new. HandsReifications reifications result (T.state old) (T.state new) };

    ghost has_room = { λ n sink. (T.state sink).next + 2 * n ≤ 2 ^ 61 + 2 ^ 33 };

    ghost leaves = { λ w ts before part. V.list part ≡ values (V.scheme w.of.now) (tree_of (weights ts)) };

    fn leaf(&self, alloc: Global, terms: &[Term], before: u64) -> SinkResult<Placed<V::Values>> {
        let part = self.of.leaf_values(alloc, terms)?;
        Ok(Placed { part, next: before })
    }

    fn node(
        &self,
        alloc: Global,
        parts: &Parts<V::Values>,
        sink: &mut T,
    ) -> SinkResult<Placed<V::Values>> {
        let part = self.of.node_values(alloc, parts)?;
        let first = self.of.first() + parts.next as u32;
        derive_outputs(alloc, self.of, parts.terms, &part, first, sink)?;
        let next = parts.next + self.of.count(&part);
        Ok(Placed { part, next })
    }

    ghost then = { λ xs ys placed r a b c taken rest. reifications_then r xs ys (T.state a) (T.state b) (T.state c) taken rest };

    ghost stops = { λ xs ys f a b part. meant_stop xs (T.state a) (T.state b) ys f part };

    ghost room_first = { λ m n a room. less_meant m n _ room };

    ghost room_then = { λ xs n placed a b room taken. meant_room xs (T.state a) (T.state b) n room taken };
}

/// What the fresh variables of a sum mean, and how many they are.
pub fn derive_meanings<V: TreeSum, T: StepSink>(
    alloc: Global,
    of: &V,
    sink: &mut T,
) -> SinkResult<u64>
    requires { (T.state sink.old).next ≤ 2 ^ 61 }
    ensures hands { HandsReifications (reifications (V.scheme of.now) (tree_of (weights (V.all of.now))) (V.start of.now)) result (T.state sink.old) (T.state sink.new) }
    ensures count { IfOk result (λ count. count ≡ fresh_over (V.scheme of.now) (V.all of.now)) }
{
    let root = walk_along(alloc, &Meanings { of }, of.terms(), 0, sink)?;
    Ok(root.next)
}
