//! The derivation of an exact sum's clauses.
ghost use Rattle.std.specs.Prelude.{◌≤◌, ◌<◌, ◌+◌, ◌^◌, ◌∷◌, []};
ghost use Rattle.pb_norm.specs.BoundedSums.{sum_within};
ghost use Rattle.pb_family.specs.StepSinks.{HandsSteps};
ghost use Rattle.pb_family.specs.HandedJustifications.{HandsJustifications};
ghost use Rattle.pb_totalizer.specs.ExactSteps.{exact_steps};
ghost use Rattle.pb_totalizer.specs.inner.LimitSources.{least_given};
ghost use Rattle.pb_totalizer.specs.inner.Sources.{root_given};

use crate::claims::first_id;
use crate::handing::derive_nodes;
use crate::limit_claims::second_id;
use crate::node_ids::Source;
use crate::whole::Whole;
use pb_family::{SinkResult, StepSink, derive_by};
use pb_tree::{TreeClaims, derive_along};
use std::alloc::Global;

/// That not so many leaves are true, by the sum's own constraint.
fn derive_root<T: StepSink>(
    alloc: Global,
    root: Source,
    number: u64,
    own: u64,
    sink: &mut T,
) -> SinkResult
    requires small { number < 2 ^ 33 }
    requires few { (T.state sink.old).next + 1 < 2 ^ 62 }
    ensures { HandsJustifications (root_given root number own ∷ []) result (T.state sink.old) (T.state sink.new) }
{
    derive_by(alloc, first_id(root, number), None, own, &[], sink)
}

/// That so many leaves are true and no more, by the sum's constraints from below and from above.
fn derive_ends<T: StepSink>(
    alloc: Global,
    root: Source,
    number: u64,
    lower: u64,
    upper: u64,
    sink: &mut T,
) -> SinkResult
    requires some { 1 ≤ number }
    requires small { number < 2 ^ 32 }
    requires few { (T.state sink.old).next + 2 < 2 ^ 62 }
    ensures { HandsJustifications (least_given root number lower ∷ root_given root (number + 1) upper ∷ []) result (T.state sink.old) (T.state sink.new) }
{
    derive_by(alloc, second_id(root, number), None, lower, &[], sink)?;
    derive_root(alloc, root, number + 1, upper, sink)
}

/// The clauses of an exact sum, with those of the root, which follow from the sum's constraints from below and from above.
#[derive(Clone, Copy)]
struct Exactly<'a> {
    whole: &'a Whole<'a>,
    lower: u64,
    upper: u64,
}

impl<'a> TreeClaims<Whole<'a>> for Exactly<'a> {
    ghost use Rattle.pb_totalizer.specs.inner.ExactSources.{exact_all_justifications};

    ghost sum = { λ d. d.whole.now };

    ghost given = { λ d id. exact_all_justifications d.whole.now.bound d.whole.now.terms.now id d.lower d.upper };

    fn sum(&self) -> &Whole<'a> {
        self.whole
    }

    fn claim<T: StepSink>(&self, alloc: Global, id: u64, sink: &mut T) -> SinkResult {
        let root = derive_nodes(alloc, self.whole, id, sink)?;
        let number = self.whole.bound;
        derive_ends(
            alloc,
            root.part.source,
            number,
            self.lower,
            self.upper,
            sink,
        )
    }
}

/// Hands over the whole derivation, where `lower` is the id of the constraint from below, and `upper` of the one from above.
pub fn derive_exact<T: StepSink>(
    alloc: Global,
    whole: &Whole,
    lower: u64,
    upper: u64,
    sink: &mut T,
) -> SinkResult
    requires { (T.state sink.old).next ≤ 2 ^ 61 }
    ensures { HandsSteps (exact_steps (sum_within whole.now.terms.now whole.now.bound) whole.now.first lower upper (T.state sink.old).next) result (T.state sink.old) (T.state sink.new) }
{
    let clauses = Exactly {
        whole,
        lower,
        upper,
    };
    derive_along(alloc, &clauses, sink)
}
