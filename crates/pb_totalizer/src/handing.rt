//! The clauses of the derivation of an exact sum, part by part.
ghost use Rattle.std.specs.Prelude.{◌<◌, ◌+◌, ◌*◌, ◌^◌, length, IfOk};
ghost use Rattle.pb_family.specs.HandedJustifications.{HandsJustifications};
ghost use Rattle.pb_tree.specs.Walks.{fresh_over};
ghost use Rattle.pb_totalizer.specs.Totalizer.{totalizer};
ghost use Rattle.pb_totalizer.specs.inner.ExactSources.{nodes_justifications};
ghost use Rattle.pb_totalizer.specs.inner.Sources.{StandAt};

use crate::node_ids::{Handed, IdRow, NodeIds, Source};
use crate::row_claims::derive_own;
use crate::whole::Whole;
use pb_base::Term;
use pb_family::{SinkFault, SinkResult, StepSink};
use pb_tree::{Parts, Placed, Walk, walk_along};
use std::alloc::Global;

/// The clauses along the tree of an exact sum, whose variables' constraints have the ids from `id` on.
#[derive(Clone, Copy)]
struct Claims<'a> {
    whole: &'a Whole<'a>,
    id: u64,
    ghost ids: { id + 2 * fresh_over (totalizer whole.now.bound) whole.now.terms.now < 2 ^ 62 },
}

impl<'a, T: StepSink> Walk<T> for Claims<'a> {
    ghost use Rattle.std.specs.Prelude.{◌<◌, ◌+◌, ◌*◌, ◌^◌};
    ghost use Rattle.pb_derive.specs.Justifications.{Justification};
    ghost use Rattle.pb_family.specs.HandedJustifications.{HandsJustifications};
    ghost use Rattle.pb_family.proofs.FlatPieces.{justifications_then};
    ghost use Rattle.pb_tree.specs.Walks.{fresh_over};
    ghost use Rattle.pb_tree.proofs.HandingLaws.{claimed_stop, less_claimed, claimed_room};
    ghost use Rattle.pb_totalizer.specs.ExactSteps.{own_justifications};
    ghost use Rattle.pb_totalizer.specs.Totalizer.{totalizer};
    ghost use Rattle.pb_totalizer.specs.inner.Sources.{StandAt};

    type Part = Handed;

    type Fault = SinkFault;

    ghost Item = { Justification };

    ghost scheme = { λ w. totalizer w.whole.now.bound };

    ghost most = { λ w. fresh_over (totalizer w.whole.now.bound) w.whole.now.terms.now };

    ghost own = { λ w l r before. own_justifications w.whole.now.bound l r before (w.id + 2 * before) };

    ghost hands = { λ justifications result old new. HandsJustifications justifications result (T.state old) (T.state new) };

    ghost has_room = { λ n sink. (T.state sink).next + n < 2 ^ 62 };

    ghost leaves = { λ w ts before part. StandAt w.whole.now.bound ts (w.id + 2 * before) part };

    fn leaf(&self, _alloc: Global, _terms: &[Term], before: u64) -> SinkResult<Placed<Handed>> {
        Ok(Placed {
            part: Handed {
                source: Source::Leaf,
                count: 1,
            },
            next: before,
        })
    }

    fn node(
        &self,
        alloc: Global,
        parts: &Parts<Handed>,
        sink: &mut T,
    ) -> SinkResult<Placed<Handed>> {
        let cap = self.whole.bound + 1;
        let count = (parts.left.count + parts.right.count).min(cap);
        let own = self.id + 2 * parts.next;
        let node = NodeIds {
            lefts: parts.lefts,
            left: *parts.left,
            rights: parts.rights,
            right: *parts.right,
            own,
            count,
            cap,
        };
        derive_own(alloc, &node, sink)?;
        Ok(Placed {
            part: Handed {
                source: Source::Fresh(IdRow { first: own }),
                count,
            },
            next: parts.next + count,
        })
    }

    ghost then = { λ xs ys placed r a b c taken rest. justifications_then r xs ys (T.state a) (T.state b) (T.state c) taken rest };

    ghost stops = { λ xs ys f a b part. claimed_stop xs (T.state a) (T.state b) ys f part };

    ghost room_first = { λ m n a room. less_claimed m n _ room };

    ghost room_then = { λ xs n placed a b room taken. claimed_room xs (T.state a) (T.state b) n room taken };
}

/// The clauses of all nodes, and what the root leaves.
pub fn derive_nodes<T: StepSink>(
    alloc: Global,
    whole: &Whole,
    id: u64,
    sink: &mut T,
) -> SinkResult<Placed<Handed>>
    requires ids { id + 2 * fresh_over (totalizer whole.now.bound) whole.now.terms.now < 2 ^ 62 }
    requires room { (T.state sink.old).next + length (nodes_justifications whole.now.bound whole.now.terms.now id) < 2 ^ 62 }
    ensures hands { HandsJustifications (nodes_justifications whole.now.bound whole.now.terms.now id) result (T.state sink.old) (T.state sink.new) }
    ensures stand { IfOk result (λ root. StandAt whole.now.bound whole.now.terms.now id root.part) }
{
    let claims = Claims { whole, id };
    walk_along(alloc, &claims, whole.terms, 0, sink)
}
