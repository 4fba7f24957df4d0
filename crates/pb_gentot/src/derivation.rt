//! The derivation of a generalized totalizer's clauses.
ghost use Rattle.std.specs.Prelude.{◌<◌, ◌+◌, ◌^◌, ◌∷◌, [], Contains};
ghost use Rattle.pb_norm.specs.BoundedSums.{IsProper, sum_within};
ghost use Rattle.pb_family.specs.HandedJustifications.{HandsJustifications};
ghost use Rattle.pb_gentot.specs.inner.Sources.{root_given};

use crate::claims::first_id;
use crate::handing::derive_nodes;
use crate::node_ids::Handed;
use crate::outputs::place_in;
use crate::whole::Whole;
use pb_family::{SinkResult, StepSink, derive_by};
use pb_tree::TreeClaims;
use std::alloc::Global;

/// That the sum of the true leaves does not reach the cap, by the sum's own constraint.
fn derive_root<T: StepSink>(
    alloc: Global,
    root: &Handed,
    cap: u128,
    own: u64,
    sink: &mut T,
) -> SinkResult
    requires has { Contains root.now.values.items cap }
    requires few { (T.state sink.old).next + 1 < 2 ^ 62 }
    ensures { HandsJustifications (root_given root.now cap own ∷ []) result (T.state sink.old) (T.state sink.new) }
{
    let place = place_in(root.values.as_slice(), cap);
    derive_by(alloc, first_id(root.source, place), None, own, &[], sink)
}

/// The clauses of a generalized totalizer, with that of the root, which follows from the sum's constraint with the id `own`.
#[derive(Clone, Copy)]
pub struct Bounded<'a> {
    pub whole: &'a Whole<'a>,
    pub own: u64,
    ghost proper: { IsProper (sum_within whole.now.terms.now whole.now.bound) },
}

impl<'a> TreeClaims<Whole<'a>> for Bounded<'a> {
    ghost use Rattle.pb_gentot.specs.inner.Sources.{all_justifications};

    ghost sum = { λ d. d.whole.now };

    ghost given = { λ d id. all_justifications d.whole.now.bound d.whole.now.terms.now id d.own };

    fn sum(&self) -> &Whole<'a> {
        self.whole
    }

    fn claim<T: StepSink>(&self, alloc: Global, id: u64, sink: &mut T) -> SinkResult {
        let root = derive_nodes(alloc, self.whole, id, sink)?;
        derive_root(alloc, &root, self.whole.bound + 1, self.own, sink)
    }
}
