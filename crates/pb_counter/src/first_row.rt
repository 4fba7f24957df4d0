//! The steps of the first row of a counter.
ghost use Rattle.std.specs.Prelude.{◌<◌, ◌≤◌, ◌+◌, ◌*◌, ◌^◌};

use crate::front::derive_front;
use pb_base::{Lit, Term};
use pb_family::{
    SinkResult, StepSink, derive_deletion, derive_line, derive_reification, derive_sum, fresh_at,
};
use pb_steps::{PolOp, Step};
use std::alloc::{AllocError, Global};

/// The first literal, the row's first variable and last place, the id of the constraint of the sum, and those of the row's lines.
#[derive(Clone, Copy)]
pub struct FirstRow {
    pub lit: Lit,
    pub first: u32,
    pub last: u64,
    pub id: u64,
    pub counts: u64,
    pub starts: u64,
    pub order: u64,
    pub fronts: u64,
    ghost low: { 1 ≤ first },
    ghost high: { first + (1 + last) ≤ 2 ^ 31 },
    ghost counts_fit: { counts + 2 * last + 2 < 2 ^ 62 },
    ghost starts_fit: { starts + last < 2 ^ 62 },
    ghost order_fits: { order + last < 2 ^ 62 },
    ghost fronts_fit: { fronts + last < 2 ^ 62 },
}

impl FirstRow {
    ghost use Rattle.std.specs.Prelude.{◌≡◌, ◌≤◌, ◌<◌, ◌+◌, ◌*◌, ◌^◌, [], ◌∷◌, suc, map, IfOk};
    ghost use Rattle.std.specs.List.{range_with_len};
    ghost use Rattle.pb_steps.specs.declared.step.Step.TheVariants.{Del, Out};
    ghost use Rattle.pb_derive.specs.Reifications.{reification_steps};
    ghost use Rattle.pb_family.specs.Fresh.{positive_of};
    ghost use Rattle.pb_family.specs.StepSinks.{HandsFrom, HandsSteps};
    ghost use Rattle.pb_counter.specs.CounterHalves.{first_count, first_line, first_order_line, total_line};
    ghost use Rattle.pb_counter.specs.inner.PlacePieces.{front_piece};

    /// One of its variables.
    fn bit(&self, place: u64) -> Lit
        requires { place ≤ self.now.last }
        ensures { result ≡ positive_of (self.now.first + place) }
    {
        fresh_at(self.first, place as usize)
    }

    /// Hands over what a variable means: the first that the literal is true, and the others nothing that is.
    pub fn derive_count<T: StepSink>(&self, alloc: Global, place: u64, sink: &mut T) -> SinkResult
        requires within { place ≤ self.now.last }
        requires few { (T.state sink.old).next + 1 < 2 ^ 62 }
        ensures { HandsFrom (λ next. reification_steps next (first_count self.now.lit self.now.first place ∷ [])) result (T.state sink.old) (T.state sink.new) }
    {
        let var = self.bit(place).var;
        if place == 0 {
            let now = Term {
                coef: 1,
                lit: self.lit,
            };
            return derive_reification(alloc, var, &[now], 1, sink);
        }
        derive_reification(alloc, var, &[], 1, sink)
    }

    /// Hands over its clause.
    pub fn derive_start<T: StepSink>(&self, alloc: Global, place: u64, sink: &mut T) -> SinkResult
        requires within { place ≤ self.now.last }
        requires few { (T.state sink.old).next < 2 ^ 62 }
        ensures { HandsSteps (first_line self.now.counts place ∷ []) result (T.state sink.old) (T.state sink.new) }
    {
        let id = if place == 0 {
            self.counts + 1
        } else {
            self.counts + 2 * place
        };
        derive_line(alloc, &[PolOp::Push(id)], sink)
    }

    /// Hands over that a place is reached where the next one is.
    pub fn derive_order<T: StepSink>(&self, alloc: Global, place: u64, sink: &mut T) -> SinkResult
        requires within { place < self.now.last }
        requires few { (T.state sink.old).next < 2 ^ 62 }
        ensures { HandsSteps (first_order_line self.now.first self.now.counts place ∷ []) result (T.state sink.old) (T.state sink.new) }
    {
        let ops = [
            PolOp::Push(self.counts + 2 * (1 + place)),
            PolOp::Axiom(self.bit(place)),
            PolOp::Add,
        ];
        derive_line(alloc, &ops, sink)
    }

    /// Hands over a place of its fronts.
    pub fn derive_own_front<T: StepSink>(
        &self,
        alloc: Global,
        place: u64,
        sink: &mut T,
    ) -> SinkResult
        requires within { place ≤ self.now.last }
        requires few { (T.state sink.old).next < 2 ^ 62 }
        ensures { HandsSteps (front_piece self.now.first self.now.order self.now.fronts place ∷ []) result (T.state sink.old) (T.state sink.new) }
    {
        derive_front(alloc, self.first, self.order, self.fronts, place, sink)
    }

    /// What the total of the other literals is added up from.
    fn summands(&self, alloc: Global) -> Result<Vec<u64>, AllocError>
        ensures { IfOk result (λ ids. ids.items ≡ self.now.id ∷ map (λ j. self.now.counts + 2 * j) (range_with_len 0 (suc self.now.last))) }
    {
        let mut ids = vec![in alloc; self.id]?;
        for place in 0..1 + self.last {
            ids.push(self.counts + 2 * place)?;
        }
        Ok(ids)
    }

    /// Hands over this total.
    pub fn derive_total<T: StepSink>(&self, alloc: Global, sink: &mut T) -> SinkResult
        requires few { (T.state sink.old).next < 2 ^ 62 }
        ensures { HandsSteps (total_line self.now.last self.now.id self.now.counts ∷ []) result (T.state sink.old) (T.state sink.new) }
    {
        let ids = self.summands(alloc)?;
        derive_sum(alloc, &ids, sink)
    }

    /// Puts out a clause.
    pub fn put_out<T: StepSink>(&self, place: u64, sink: &mut T) -> SinkResult
        requires within { place ≤ self.now.last }
        requires few { (T.state sink.old).next < 2 ^ 62 }
        ensures { HandsSteps (Out (self.now.starts + place) ∷ []) result (T.state sink.old) (T.state sink.new) }
    {
        sink.step(&Step::Out {
            id: self.starts + place,
        })
    }

    /// Hands over that what the variables mean goes.
    pub fn derive_deleted<T: StepSink>(&self, alloc: Global, sink: &mut T) -> SinkResult
        requires few { (T.state sink.old).next < 2 ^ 62 }
        ensures { HandsSteps (Del (range_with_len self.now.counts (2 * suc self.now.last)) ∷ []) result (T.state sink.old) (T.state sink.new) }
    {
        derive_deletion(alloc, self.counts, 2 * (1 + self.last), sink)
    }
}
