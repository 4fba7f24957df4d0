//! How a group of constraints is encoded.
ghost use Rattle.std.specs.Prelude.{◌≡◌, ◌≤◌, ◌<◌, ◌+◌, ◌^◌, IfOk, IfSome};
ghost use Rattle.pb_norm.specs.Constraints.{weight};
ghost use Rattle.pb_family.specs.Handing.{HandsIfMemory};
ghost use Rattle.pb_family.specs.StepSinks.{HandsFrom};
ghost use Rattle.pb_choice.specs.EqualPlans.{HasPartsOf, IsEqualPlan, IsPlanOf};
ghost use Rattle.pb_encode.specs.declared.groups.Group.TheVariants.{Alone, Paired};
ghost use Rattle.pb_encode.specs.inner.Hints.{IsToldOf};
ghost use Rattle.pb_encode.specs.inner.GroupPlans.{plan_clauses, plan_count, plan_fresh, plan_size, plan_steps, HasPlanTurn, IsGroupPlan, IsLightGroup, IsPlanBelow};

use crate::groups::Group;
use crate::hints::Tells;
use crate::position::Position;
use pb_base::{NoMemory, Options};
use pb_choice::{Counts, EqualPlan, Plan, plan, plan_adder, plan_adders, plan_equal, plan_kept};
use pb_family::{ClauseSink, SinkResult, StepSink};
use pb_norm::Linear;
use std::alloc::Global;

/// The encoding of a group under some options.
pub enum GroupPlan<'a> {
    Alone(Plan<'a>),
    /// In memory of its own: most groups are single constraints, whose plans take little room.
    Paired(Box<EqualPlan<'a>>),
}

// Written out, so that it is one call in the proofs of the functions that own a plan.
impl Drop for GroupPlan<'_> {
    fn drop(self) {
        match self {
            GroupPlan::Alone(_) => {}
            GroupPlan::Paired(_) => {}
        }
    }
}

// Plans the encoding of a single constraint, and builds only what the advice does not give.
fn plan_alone<'a>(
    alloc: Global,
    constraint: &'a Linear,
    options: &Options,
    told: Option<&'a Tells>,
) -> Result<Plan<'a>, NoMemory>
    requires light { weight constraint.now.terms < 2 ^ 100 }
    requires told { IfSome told (λ tells. IsToldOf options.now (Alone constraint.now) tells.now) }
    ensures { IfOk result (IsPlanOf options.now constraint.now) }
{
    match told {
        Some(Tells::Adder) => plan_adder(alloc, constraint, options),
        Some(Tells::Diagram(kept)) => plan_kept(alloc, constraint, options, kept),
        None => plan(alloc, constraint, options),
    }
}

// Plans the encoding of an equality, and builds only what the advice does not give.
fn plan_pair<'a>(
    alloc: Global,
    lower: &'a Linear,
    upper: &'a Linear,
    options: &Options,
    told: Option<&Tells>,
) -> Result<EqualPlan<'a>, NoMemory>
    requires lower_light { weight lower.now.terms < 2 ^ 100 }
    requires upper_light { weight upper.now.terms < 2 ^ 100 }
    requires told { IfSome told (λ tells. IsToldOf options.now (Paired lower.now upper.now) tells.now) }
    ensures choice { IfOk result (IsEqualPlan options.now lower.now upper.now) }
    ensures parts { IfOk result (HasPartsOf options.now lower.now upper.now) }
{
    match told {
        Some(Tells::Adder) => plan_adders(alloc, lower, upper, options),
        Some(Tells::Diagram(_)) => unreachable!(),
        None => plan_equal(alloc, lower, upper, options),
    }
}

/// Plans the encoding of a group under some options, and builds only what the advice on it does not give.
pub fn plan_group<'a>(
    alloc: Global,
    group: &'a Group,
    options: &Options,
    told: Option<&'a Tells>,
) -> Result<GroupPlan<'a>, NoMemory>
    requires light { IsLightGroup group.now }
    requires told { IfSome told (λ tells. IsToldOf options.now group.now tells.now) }
    ensures { IfOk result (IsGroupPlan options.now group.now) }
{
    match group {
        Group::Alone(constraint) => {
            let plan = plan_alone(alloc, constraint, options, told)?;
            Ok(GroupPlan::Alone(plan))
        }
        Group::Paired(lower, upper) => {
            let plan = plan_pair(alloc, lower, upper, options, told)?;
            Ok(GroupPlan::Paired(Box::new(alloc, plan)?))
        }
    }
}

impl<'a> GroupPlan<'a> {
    ghost use Rattle.pb_encode.specs.declared.group_plan.GroupPlan.TheVariants.{Alone};

    /// Returns the plan of the constraint, if the group is a single one.
    pub fn into_alone(self) -> Option<Plan<'a>>
        ensures { IfSome result (λ plan. self.entry ≡ Alone plan) }
    {
        match self {
            GroupPlan::Alone(plan) => Some(plan),
            GroupPlan::Paired(_) => None,
        }
    }
}

impl GroupPlan<'_> {
    /// Returns the numbers of fresh variables and clauses of the group's encoding.
    pub fn counts(&self) -> Counts
        ensures fresh { result.fresh ≡ plan_fresh self.now }
        ensures clauses { result.clauses ≡ plan_count self.now }
    {
        match self {
            GroupPlan::Alone(plan) => plan.counts(),
            GroupPlan::Paired(plan) => plan.counts(),
        }
    }

    /// Emits the clauses, with the fresh variables from `first` on, and returns the first number after these.
    pub fn emit<S: ClauseSink>(&self, alloc: Global, first: u32, sink: &mut S) -> SinkResult<u32>
        requires original { IsPlanBelow first self.now }
        requires low { 1 ≤ first }
        requires fits { first + plan_fresh self.now ≤ 2 ^ 31 }
        ensures next { IfOk result (λ next. next ≡ first + plan_fresh self.now) }
        ensures hands { HandsIfMemory (plan_clauses self.now first) result (S.state sink.old) (S.state sink.new) }
    {
        match self {
            GroupPlan::Alone(plan) => {
                plan.emit(alloc, first, sink)?;
                Ok(first + plan.counts().fresh as u32)
            }
            GroupPlan::Paired(plan) => {
                plan.emit(alloc, first, sink)?;
                Ok(first + plan.counts().fresh as u32)
            }
        }
    }

    /// Emits the steps that derive the group's clauses from its constraints, and returns the position of the next group.
    pub fn derive<T: StepSink>(
        &self,
        alloc: Global,
        position: Position,
        sink: &mut T,
    ) -> SinkResult<Position>
        requires original { IsPlanBelow position.first self.now }
        requires turn { HasPlanTurn self.now position.first position.id (T.state sink.old).next }
        ensures first { IfOk result (λ next. next.first ≡ position.first + plan_fresh self.now) }
        ensures id { IfOk result (λ next. next.id ≡ position.id + plan_size self.now) }
        ensures hands { HandsFrom (plan_steps self.now position.first position.id) result (T.state sink.old) (T.state sink.new) }
    {
        let Position { first, id } = position;
        match self {
            GroupPlan::Alone(plan) => {
                plan.derive(alloc, first, id, sink)?;
                Ok(Position {
                    first: first + plan.counts().fresh as u32,
                    id: id + 1,
                })
            }
            GroupPlan::Paired(plan) => {
                plan.derive(alloc, first, id, id + 1, sink)?;
                Ok(Position {
                    first: first + plan.counts().fresh as u32,
                    id: id + 2,
                })
            }
        }
    }
}
