//! At most one of some literals, by a clause for each two of them.
ghost use Rattle.std.specs.Prelude.{◌≡◌, ◌<◌, ◌+◌, ◌^◌, ℕ, true, length};
ghost use Rattle.pb_family.specs.Handing.{Hands};
ghost use Rattle.pb_norm.specs.Reduction.{all_weigh, lits_of};
ghost use Rattle.pb_amo.specs.Pairwise.{pair_count, pairwise_clauses};
ghost use Rattle.pb_amo.specs.inner.Source.{source_literals};

use crate::claims::derive_pairs;
use crate::one::One;
use crate::sides::pairs_of;
use crate::source::Source;
use pb_base::Failed;
use pb_family::{ClauseSink, Derive, Family, SinkResult, StepSink, Strong, sink_result};
use pb_norm::AtMost;
use std::alloc::Global;

/// A clause for each two of the literals (the pairwise, or binomial, encoding: Frisch and Giannaros 2010).
#[derive(Clone, Copy)]
pub struct Pairwise<'a> {
    sum: One<'a>,
}

impl<'a> Pairwise<'a> {
    /// The clauses over a sum whose bound is 1, as each of its coefficients is.
    pub fn over(of: &'a AtMost) -> Self
        requires at_most_one { of.now.bound ≡ 1 }
        requires units { all_weigh 1 of.now.terms ≡ true }
        // The family is of this sum.
        ensures constraint { ⟦<Self as Family>⟧.constraint result ≡ of.now }
        // It has no fresh variable.
        ensures fresh { ⟦<Self as Family>⟧.fresh_count result ≡ 0 }
        // It has a clause for each two literals.
        ensures clauses { ⟦<Self as Family>⟧.clause_count result ≡ pair_count (length of.now.terms) }
        // Its clauses are those of the pairwise encoding.
        ensures list { (first : ℕ) → ⟦<Self as Family>⟧.clause_list result first ≡ pairwise_clauses (lits_of of.now.terms) }
    {
        Pairwise { sum: One::over(of) }
    }
}

/// Hands over a clause for each two of the literals.
pub(crate) fn emit_pairs<S: ClauseSink>(literals: &Source, sink: &mut S) -> Result<(), Failed>
    requires few { length (source_literals literals.now) < 2 ^ 31 }
    ensures { Hands (pairwise_clauses (source_literals literals.now)) result (S.state sink.old) (S.state sink.new) }
{
    let count = literals.len();
    for i in 0..count {
        for j in i + 1..count {
            let (one, two) = literals.opposites(i, j);
            sink.clause(&[one, two])?;
        }
    }
    Ok(())
}

impl Family for Pairwise<'_> {
    ghost use Rattle.pb_amo.specs.laws.PairwiseLaws.{pairwise_sound, pairwise_extends, pairwise_counts, pairwise_names};

    ghost constraint = { λ f. f.sum.of.now };

    ghost fresh_count = { λ _. 0 };

    ghost clause_count = { λ f. pair_count (length f.sum.of.now.terms) };

    ghost clause_list = { λ f _. pairwise_clauses (lits_of f.sum.of.now.terms) };

    ghost TakesNoMemory = { λ _. Unit {0} };

    fn fresh(&self) -> u64 {
        0
    }

    fn clauses(&self) -> u64 {
        pairs_of(self.sum.of.terms().len())
    }

    fn emit<S: ClauseSink>(&self, _alloc: Global, first: u32, sink: &mut S) -> SinkResult {
        let _ = first;
        sink_result(emit_pairs(&Source::OfTerms(self.sum.of.terms()), sink))
    }

    ghost sound = { λ f first below v model. pairwise_sound f.sum.of.now f.sum.at_most_one f.sum.units v model };

    ghost extends = { λ f first below v holds. pairwise_extends f.sum.of.now f.sum.at_most_one f.sum.units first v holds };

    ghost counts = { λ f first. pairwise_counts f.sum.of.now.terms };

    ghost names = { λ f first. pairwise_names f.sum.of.now.terms first 0 };
}

impl Strong for Pairwise<'_> {
    ghost use Rattle.pb_amo.specs.laws.PairwiseLaws.{pairwise_propagates};

    ghost propagates = { λ f first below. pairwise_propagates f.sum.of.now f.sum.at_most_one f.sum.units f.sum.distinct };
}

impl Derive for Pairwise<'_> {
    ghost use Rattle.pb_amo.specs.PairwiseSteps.{pairwise_steps};
    ghost use Rattle.pb_amo.specs.laws.PairwiseDerives.{pairwise_derives, pairwise_few};
    ghost use Rattle.pb_amo.specs.laws.PairwiseShort.{pairwise_sayable, pairwise_short};

    ghost step_list = { λ f first id next. pairwise_steps (lits_of f.sum.of.now.terms) id next };

    fn derive<T: StepSink>(&self, alloc: Global, first: u32, id: u64, sink: &mut T) -> SinkResult {
        let _ = first;
        derive_pairs(alloc, &Source::OfTerms(self.sum.of.terms()), id, sink)
    }

    ghost derives = { λ f first id db below ready. pairwise_derives f.sum.of.now f.sum.at_most_one f.sum.units f.sum.distinct first id db below ready };

    ghost few_steps = { λ f first id next. pairwise_few f.sum.of.now.terms id next };

    ghost sayable = { λ f first id next original start. pairwise_sayable f.sum.of.now.terms first id next original start f.sum.few };

    ghost short = { λ f first id next original start. pairwise_short f.sum.of.now.terms first id next original start f.sum.few };
}
