//! The steps that derive the clauses of a ladder.
ghost use Rattle.std.specs.Prelude.{◌≤◌, ◌<◌, ◌^◌};

use crate::rung::{Place, place_at};
use crate::rungs::Rungs;
use pb_base::{Lit, Term};
use pb_family::{
    SinkResult, StepSink, derive_propagated, derive_reification, derive_sum, fresh_at,
};
use std::alloc::Global;

/// A ladder whose sum's constraint has the id `id`, and whose derivation has the ids from `base` on.
#[derive(Clone, Copy)]
pub struct RungSteps<'a> {
    pub rungs: Rungs<'a>,
    pub id: u64,
    pub base: u64,
    ghost known: { id < 2 ^ 62 },
    ghost modest: { base ≤ 2 ^ 61 },
}

impl RungSteps<'_> {
    ghost use Rattle.std.specs.Prelude.{◌≡◌, ◌<◌, ◌+◌, ◌-◌, ◌*◌, ◌^◌, [], ◌∷◌, length};
    ghost use Rattle.pb_norm.specs.Constraints.{weights};
    ghost use Rattle.pb_norm.specs.Reduction.{lits_of};
    ghost use Rattle.pb_derive.specs.Reifications.{reification_steps};
    ghost use Rattle.pb_derive.specs.Claims.{claim_steps};
    ghost use Rattle.pb_family.specs.Fresh.{fresh_at, literal_at};
    ghost use Rattle.pb_family.specs.StepSinks.{HandsFrom, HandsSteps};
    ghost use Rattle.pb_amo.specs.LadderSteps.{front_line, fronts_at, place_claim, rung, source_at};
    ghost use Rattle.pb_amo.specs.inner.LadderOrder.{IsPlace, place_at};

    /// The variable at a place that is counted from the end.
    fn bit(&self, number: usize) -> Lit
        requires { number < length self.now.rungs.terms.now - 1 }
        ensures { result ≡ fresh_at self.now.rungs.first (length self.now.rungs.terms.now - 2 - number) }
    {
        fresh_at(self.rungs.first, self.rungs.terms.len() - 2 - number)
    }

    /// That the variable at a place, counted from the end, is true where the next literal or the next variable is.
    pub fn derive_rung<T: StepSink>(&self, alloc: Global, number: usize, sink: &mut T) -> SinkResult
        requires within { number < length self.now.rungs.terms.now - 1 }
        requires few { (T.state sink.old).next + 1 < 2 ^ 62 }
        ensures { HandsFrom (λ next. reification_steps next (rung (lits_of (weights self.now.rungs.terms.now)) self.now.rungs.first number ∷ [])) result (T.state sink.old) (T.state sink.new) }
    {
        let terms = self.rungs.terms;
        let var = self.bit(number).var;
        let literal = Term {
            coef: 1,
            lit: terms[terms.len() - 1 - number].lit,
        };
        if number == 0 {
            return derive_reification(alloc, var, &[literal], 1, sink);
        }
        let next = Term {
            coef: 1,
            lit: self.bit(number - 1),
        };
        derive_reification(alloc, var, &[literal, next], 1, sink)
    }

    /// The id of the first front.
    fn fronts(&self) -> u64
        ensures { result ≡ fronts_at (length self.now.rungs.terms.now) self.now.base }
    {
        self.base + 2 * (self.rungs.terms.len() as u64 - 1)
    }

    /// That at most one of the literals up to a place, counted from the end, and its variable is true.
    pub fn derive_front<T: StepSink>(
        &self,
        alloc: Global,
        number: usize,
        sink: &mut T,
    ) -> SinkResult
        requires within { number < length self.now.rungs.terms.now - 1 }
        requires few { (T.state sink.old).next < 2 ^ 62 }
        ensures { HandsSteps (front_line self.now.id self.now.base (fronts_at (length self.now.rungs.terms.now) self.now.base) number ∷ []) result (T.state sink.old) (T.state sink.new) }
    {
        let meaning = self.base + 2 * number as u64;
        if number == 0 {
            return derive_sum(alloc, &[self.id, meaning], sink);
        }
        let before = self.fronts() + (number as u64 - 1);
        derive_sum(alloc, &[before, meaning], sink)
    }

    /// The id of the constraint that gives the clause at a place.
    fn source(&self, place: Place) -> u64
        requires { IsPlace (length self.now.rungs.terms.now) place }
        ensures { result ≡ source_at (length self.now.rungs.terms.now) self.now.base place }
    {
        let last = self.rungs.terms.len() - 2;
        match place {
            Place::Link(k) => self.base + 2 * (last - k) as u64 + 1,
            Place::NoneAfter(k) => self.fronts() + (last - k) as u64,
            Place::SomeAfter(k) => self.base + 2 * (last - k) as u64 + 1,
        }
    }

    /// The clause with a number.
    pub fn derive_clause<T: StepSink>(
        &self,
        alloc: Global,
        number: usize,
        sink: &mut T,
    ) -> SinkResult
        requires within { number < 3 * length self.now.rungs.terms.now - 4 }
        requires few { (T.state sink.old).next + 1 < 2 ^ 62 }
        ensures { HandsFrom (λ next. claim_steps next (place_claim (lits_of (weights self.now.rungs.terms.now)) self.now.rungs.first self.now.base (place_at (length self.now.rungs.terms.now) number) ∷ [])) result (T.state sink.old) (T.state sink.new) }
    {
        let source = self.source(place_at(self.rungs.terms.len(), number));
        let (one, two) = self.rungs.pair(number);
        derive_propagated(alloc, &[source], &[one, two], sink)
    }
}
