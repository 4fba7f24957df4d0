//! How an equality is encoded.

use crate::equal_derivation::derive_joint;
use crate::equal_halves::{HalfIds, count_halves, derive_halves, emit_halves};
use crate::plans::{Counts, Plan};
use pb_family::{ClauseSink, Pair, SinkResult, StepSink};
use pb_totalizer::Exact;
use std::alloc::Global;

/// The encoding of the two halves of an equality.
pub enum EqualPlan<'a> {
    /// Both as one: exactly so many of the literals are true. In the halves each has the coefficient `a`.
    Joint { exact: Exact, a: i128 },
    /// One by one, the lower half first.
    Split(Plan<'a>, Plan<'a>),
}

// Written out: one call in the proof of a function that owns it.
impl Drop for EqualPlan<'_> {
    fn drop(self) {
        match self {
            EqualPlan::Joint { exact: _, a: _ } => {}
            EqualPlan::Split(_, _) => {}
        }
    }
}

impl EqualPlan<'_> {
    ghost use Rattle.std.specs.Prelude.{◌≡◌, ◌≤◌, ◌<◌, ◌+◌, ◌^◌};
    ghost use Rattle.pb_family.specs.Handing.{HandsIfMemory};
    ghost use Rattle.pb_family.specs.StepSinks.{HandsFrom};
    ghost use Rattle.pb_choice.specs.EqualPlans.{IsPlannedBelow, planned_clauses, planned_count, planned_fresh, planned_steps};

    /// Returns the numbers of fresh variables and clauses of the equality's encoding; nothing is built for that.
    pub fn counts(&self) -> Counts
        // The number of fresh variables is the plan's.
        ensures fresh { result.fresh ≡ planned_fresh self.now }
        // The number of clauses is the plan's.
        ensures clauses { result.clauses ≡ planned_count self.now }
    {
        match self {
            EqualPlan::Joint { exact, a: _ } => Counts {
                fresh: exact.fresh(),
                clauses: exact.clauses(),
            },
            EqualPlan::Split(lower, upper) => count_halves(lower, upper),
        }
    }

    /// Emits the clauses, with the fresh variables from `first` on.
    pub fn emit<S: ClauseSink>(&self, alloc: Global, first: u32, sink: &mut S) -> SinkResult
        requires original { IsPlannedBelow first self.now }
        requires low { 1 ≤ first }
        requires fits { first + planned_fresh self.now ≤ 2 ^ 31 }
        // Exactly the plan's clauses were emitted, in order, or a first part of their text until the sink failed or memory ran out.
        ensures { HandsIfMemory (planned_clauses self.now first) result (S.state sink.old) (S.state sink.new) }
    {
        match self {
            EqualPlan::Joint { exact, a: _ } => exact.emit(alloc, first, sink),
            EqualPlan::Split(lower, upper) => emit_halves(alloc, lower, upper, first, sink),
        }
    }

    /// Emits the steps that derive the equality's clauses from the two halves, which have the ids `low` and `high`.
    pub fn derive<T: StepSink>(
        &self,
        alloc: Global,
        first: u32,
        low: u64,
        high: u64,
        sink: &mut T,
    ) -> SinkResult
        requires original { IsPlannedBelow first self.now }
        requires from { 1 ≤ first }
        requires fits { first + planned_fresh self.now ≤ 2 ^ 31 }
        requires clauses { planned_count self.now ≤ 2 ^ 56 }
        requires low_given { 1 ≤ low }
        requires low_known { low < (T.state sink.old).next }
        requires high_given { 1 ≤ high }
        requires high_known { high < (T.state sink.old).next }
        requires few { (T.state sink.old).next ≤ 2 ^ 60 }
        // Exactly the steps that derive the clauses from the two halves were emitted, or the first ones until the sink failed or memory
        // ran out.
        ensures { HandsFrom (planned_steps self.now first low high) result (T.state sink.old) (T.state sink.new) }
    {
        let ids = HalfIds { low, high };
        match self {
            EqualPlan::Joint { exact, a } => derive_joint(alloc, exact, a, first, ids, sink),
            EqualPlan::Split(lower, upper) => derive_halves(alloc, lower, upper, first, ids, sink),
        }
    }
}
