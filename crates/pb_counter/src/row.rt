//! The steps of a row of a counter, by the row before it.
ghost use Rattle.std.specs.Prelude.{◌<◌, ◌≤◌, ◌+◌, ◌*◌, ◌^◌};

use crate::front::derive_front;
use crate::last::derive_stop;
use pb_base::{Lit, Term};
use pb_family::{
    SinkResult, StepSink, derive_deleted, derive_line, derive_reification, fresh_at, over,
    push_ids, times,
};
use pb_steps::{PolOp, Step};
use std::alloc::{AllocError, Global};

/// The ids of a row's lines, of each kind from one on.
#[derive(Clone, Copy)]
pub struct RowIds {
    pub counts: u64,
    pub falls: u64,
    pub parts: u64,
    pub mores: u64,
    pub keeps: u64,
    pub stop: u64,
    pub order: u64,
    pub fronts: u64,
}

/// A row's literal, the first variable and the last place of the row before, the ids of that row's order and fronts and of the total of the
/// literal, and the ids of the row's lines.
#[derive(Clone, Copy)]
pub struct Row {
    pub lit: Lit,
    pub first: u32,
    pub last: u64,
    pub order: u64,
    pub fronts: u64,
    pub whole: u64,
    pub ids: RowIds,
    ghost low: { 1 ≤ first },
    ghost high: { first + 2 * (1 + last) ≤ 2 ^ 31 },
    ghost order_fits: { order + 2 * last < 2 ^ 62 },
    ghost fronts_fit: { fronts + 2 * last < 2 ^ 62 },
    ghost counts_fit: { ids.counts + 4 * last < 2 ^ 62 },
    ghost falls_fit: { ids.falls + last < 2 ^ 62 },
    ghost parts_fit: { ids.parts + last < 2 ^ 62 },
    ghost mores_fit: { ids.mores + last < 2 ^ 62 },
    ghost keeps_fit: { ids.keeps + last < 2 ^ 62 },
    ghost own_order_fits: { ids.order + last < 2 ^ 62 },
    ghost own_fronts_fit: { ids.fronts + last < 2 ^ 62 },
}

impl Row {
    ghost use Rattle.std.specs.Prelude.{◌≡◌, ◌≤◌, ◌<◌, ◌+◌, ◌*◌, ◌^◌, [], ◌∷◌, suc, IfOk};
    ghost use Rattle.pb_steps.specs.declared.step.Step.TheVariants.{Del, Out};
    ghost use Rattle.pb_derive.specs.Reifications.{reification_steps};
    ghost use Rattle.pb_family.specs.Fresh.{positive_of};
    ghost use Rattle.pb_family.specs.StepSinks.{HandsFrom, HandsSteps};
    ghost use Rattle.pb_counter.specs.CounterRows.{fall_line, keep_line, more_line, next_count, order_line, row_deleted, stop_line};
    ghost use Rattle.pb_counter.specs.inner.PlacePieces.{front_piece, part_piece};

    /// A variable of the row before.
    fn bit(&self, place: u64) -> Lit
        requires { place ≤ self.now.last }
        ensures { result ≡ positive_of (self.now.first + place) }
    {
        fresh_at(self.first, place as usize)
    }

    /// The row's first variable.
    fn own_first(&self) -> u32
        ensures is { result ≡ self.now.first + suc self.now.last }
        ensures fits { result + suc self.now.last ≤ 2 ^ 31 }
    {
        self.first + (1 + self.last) as u32
    }

    /// Hands over what a variable of the row means.
    pub fn derive_count<T: StepSink>(&self, alloc: Global, place: u64, sink: &mut T) -> SinkResult
        requires within { place ≤ self.now.last }
        requires few { (T.state sink.old).next + 1 < 2 ^ 62 }
        ensures { HandsFrom (λ next. reification_steps next (next_count self.now.lit self.now.first (self.now.first + suc self.now.last) place ∷ [])) result (T.state sink.old) (T.state sink.new) }
    {
        let var = fresh_at(self.own_first(), place as usize).var;
        let now = Term {
            coef: 1,
            lit: self.lit,
        };
        if place == 0 {
            let one = Term {
                coef: 1,
                lit: self.bit(0),
            };
            return derive_reification(alloc, var, &[now, one], 1, sink);
        }
        let one = Term {
            coef: 1,
            lit: self.bit(place - 1),
        };
        let two = Term {
            coef: 2,
            lit: self.bit(place),
        };
        derive_reification(alloc, var, &[now, one, two], 2, sink)
    }

    /// Hands over that a place is reached where the next one is.
    pub fn derive_fall<T: StepSink>(&self, alloc: Global, place: u64, sink: &mut T) -> SinkResult
        requires within { place < self.now.last }
        requires few { (T.state sink.old).next < 2 ^ 62 }
        ensures { HandsSteps (fall_line self.now.lit.var self.now.order self.now.ids.counts place ∷ []) result (T.state sink.old) (T.state sink.new) }
    {
        let ops = [
            PolOp::Push(self.ids.counts + 2 * (1 + place)),
            PolOp::Push(self.order + place),
            PolOp::Mul(2),
            PolOp::Add,
            PolOp::Weaken(self.lit.var),
            PolOp::Div(3),
        ];
        derive_line(alloc, &ops, sink)
    }

    /// Hands over how many are reached up to a place.
    pub fn derive_part<T: StepSink>(&self, alloc: Global, place: u64, sink: &mut T) -> SinkResult
        requires within { place ≤ self.now.last }
        requires few { (T.state sink.old).next < 2 ^ 62 }
        ensures { HandsSteps (part_piece self.now.first self.now.fronts self.now.ids.counts self.now.ids.falls self.now.ids.parts place ∷ []) result (T.state sink.old) (T.state sink.new) }
    {
        let ids = self.ids;
        if place == 0 {
            return derive_line(alloc, &[PolOp::Push(ids.counts)], sink);
        }
        let before = place - 1;
        let ops = [
            PolOp::Push(ids.parts + before),
            times(1 + before),
            PolOp::Push(self.fronts + before),
            PolOp::Add,
            PolOp::Push(ids.falls + before),
            times(1 + before),
            PolOp::Add,
            PolOp::Push(ids.counts + 2 * (1 + before)),
            PolOp::Weaken(self.bit(before).var),
            PolOp::Div(2),
            PolOp::Add,
            over(2 + before),
        ];
        derive_line(alloc, &ops, sink)
    }

    /// Hands over that one more is reached where the literal is true.
    pub fn derive_more<T: StepSink>(&self, alloc: Global, place: u64, sink: &mut T) -> SinkResult
        requires within { place ≤ self.now.last }
        requires few { (T.state sink.old).next < 2 ^ 62 }
        ensures { HandsSteps (more_line self.now.first self.now.ids.counts place ∷ []) result (T.state sink.old) (T.state sink.new) }
    {
        let ops = [
            PolOp::Push(self.ids.counts + 2 * place + 1),
            PolOp::Weaken(self.bit(place).var),
            PolOp::Div(3),
        ];
        derive_line(alloc, &ops, sink)
    }

    /// Hands over that as much is reached as before.
    pub fn derive_keep<T: StepSink>(&self, alloc: Global, place: u64, sink: &mut T) -> SinkResult
        requires within { place ≤ self.now.last }
        requires few { (T.state sink.old).next < 2 ^ 62 }
        ensures { HandsSteps (keep_line self.now.lit.var self.now.first self.now.ids.counts place ∷ []) result (T.state sink.old) (T.state sink.new) }
    {
        let counts = PolOp::Push(self.ids.counts + 2 * place + 1);
        let literal = PolOp::Weaken(self.lit.var);
        if place == 0 {
            return derive_line(alloc, &[counts, literal, PolOp::Div(3)], sink);
        }
        let before = PolOp::Weaken(self.bit(place - 1).var);
        derive_line(alloc, &[counts, literal, before, PolOp::Div(3)], sink)
    }

    /// Hands over that the literal is false where the last place is reached.
    pub fn derive_stop<T: StepSink>(&self, alloc: Global, sink: &mut T) -> SinkResult
        requires few { (T.state sink.old).next < 2 ^ 62 }
        ensures { HandsSteps (stop_line self.now.last self.now.fronts self.now.whole ∷ []) result (T.state sink.old) (T.state sink.new) }
    {
        derive_stop(alloc, self.last, self.fronts, self.whole, sink)
    }

    /// Hands over that a place of this row is reached where the next one is.
    pub fn derive_order<T: StepSink>(&self, alloc: Global, place: u64, sink: &mut T) -> SinkResult
        requires within { place < self.now.last }
        requires few { (T.state sink.old).next < 2 ^ 62 }
        ensures { HandsSteps (order_line self.now.ids.falls self.now.ids.keeps place ∷ []) result (T.state sink.old) (T.state sink.new) }
    {
        let ops = [
            PolOp::Push(self.ids.falls + place),
            PolOp::Push(self.ids.keeps + place),
            PolOp::Add,
        ];
        derive_line(alloc, &ops, sink)
    }

    /// Hands over a place of its fronts.
    pub fn derive_own_front<T: StepSink>(
        &self,
        alloc: Global,
        place: u64,
        sink: &mut T,
    ) -> SinkResult
        requires within { place ≤ self.now.last }
        requires few { (T.state sink.old).next < 2 ^ 62 }
        ensures { HandsSteps (front_piece (self.now.first + suc self.now.last) self.now.ids.order self.now.ids.fronts place ∷ []) result (T.state sink.old) (T.state sink.new) }
    {
        derive_front(
            alloc,
            self.own_first(),
            self.ids.order,
            self.ids.fronts,
            place,
            sink,
        )
    }

    /// Puts out the clauses of a place.
    pub fn put_out<T: StepSink>(&self, place: u64, sink: &mut T) -> SinkResult
        requires within { place ≤ self.now.last }
        requires few { (T.state sink.old).next < 2 ^ 62 }
        ensures { HandsSteps (Out (self.now.ids.mores + place) ∷ Out (self.now.ids.keeps + place) ∷ []) result (T.state sink.old) (T.state sink.new) }
    {
        let more = Step::Out {
            id: self.ids.mores + place,
        };
        let keep = Step::Out {
            id: self.ids.keeps + place,
        };
        sink.step(&more)?;
        sink.step(&keep)
    }

    /// Puts out that the literal is false where the last place is reached.
    pub fn put_out_stop<T: StepSink>(&self, sink: &mut T) -> SinkResult
        requires few { (T.state sink.old).next < 2 ^ 62 }
        ensures { HandsSteps (Out self.now.ids.stop ∷ []) result (T.state sink.old) (T.state sink.new) }
    {
        sink.step(&Step::Out { id: self.ids.stop })
    }

    /// The ids that go with the row.
    fn deleted(&self, alloc: Global) -> Result<Vec<u64>, AllocError>
        ensures { IfOk result (λ ids. ids.items ≡ row_deleted self.now.last self.now.order self.now.ids.counts) }
    {
        let mut ids = Vec::new(alloc);
        push_ids(&mut ids, self.order, 2 * self.last + 1)?;
        push_ids(&mut ids, self.ids.counts, 4 * self.last + 2)?;
        Ok(ids)
    }

    /// Hands over that they go.
    pub fn derive_row_deleted<T: StepSink>(&self, alloc: Global, sink: &mut T) -> SinkResult
        requires few { (T.state sink.old).next < 2 ^ 62 }
        ensures { HandsSteps (Del (row_deleted self.now.last self.now.order self.now.ids.counts) ∷ []) result (T.state sink.old) (T.state sink.new) }
    {
        derive_deleted(self.deleted(alloc)?, sink)
    }
}
