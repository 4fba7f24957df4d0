//! The steps that derive the clauses of a problem, handed to a sink.
ghost use Rattle.std.specs.Prelude.{◌≡◌, ◌+◌, IfOk, IfSome, length};
ghost use Rattle.pb_norm.specs.Products.{loaded_of};
ghost use Rattle.pb_family.specs.StepSinks.{HandsFrom};
ghost use Rattle.pb_encode.specs.Clauses.{table_first};
ghost use Rattle.pb_encode.specs.Groups.{group_fresh, group_size, group_steps};
ghost use Rattle.pb_encode.specs.inner.Streams.{loaded_steps_from};
ghost use Rattle.pb_encode.specs.inner.Hints.{IsToldOf};
ghost use Rattle.pb_encode.specs.inner.GroupPlans.{HasGroupTurn, IsSound};

use crate::encodable::Encodable;
use crate::group_plan::plan_group;
use crate::groups::{Group, Groups};
use crate::hints::{HintsLeft, Tells};
use crate::position::Position;
use pb_base::Options;
use pb_family::{SinkResult, StepSink};
use std::alloc::Global;

// Emits the derivation of a group, and returns the position of the next one.
fn derive_group<T: StepSink>(
    alloc: Global,
    group: &Group,
    options: &Options,
    told: Option<&Tells>,
    position: Position,
    sink: &mut T,
) -> SinkResult<Position>
    requires told { IfSome told (λ tells. IsToldOf options.now group.now tells.now) }
    requires sound { IsSound position.first group.now }
    requires turn { HasGroupTurn options.now group.now position.first position.id (T.state sink.old).next }
    ensures first { IfOk result (λ next. next.first ≡ position.first + group_fresh options.now group.now) }
    ensures id { IfOk result (λ next. next.id ≡ position.id + group_size group.now) }
    ensures hands { HandsFrom (group_steps options.now group.now position.first position.id) result (T.state sink.old) (T.state sink.new) }
{
    let plan = plan_group(alloc, group, options, told)?;
    plan.derive(alloc, position, sink)
}

/// Emits the derivations of all constraints, which have the ids from 1 on, and returns the position of the next group. Each constraint is
/// planned anew, and nothing is kept but what one statement needs.
pub fn derive_loaded<T: StepSink>(
    alloc: Global,
    input: &Encodable<'_>,
    sink: &mut T,
) -> SinkResult<Position>
    requires next { (T.state sink.old).next ≡ length (loaded_of input.now.problem.now) + 1 }
    ensures first { IfOk result (λ next. next.first ≡ table_first input.now.options.now input.now.problem.now) }
    ensures hands { HandsFrom (loaded_steps_from input.now.options.now input.now.problem.now) result (T.state sink.old) (T.state sink.new) }
{
    let mut next = Position {
        first: input.problem.originals() + 1,
        id: 1,
    };
    let mut hints = HintsLeft::of(input.hints);
    let mut groups = Groups::of(input.problem);
    while let Some(group) = groups.next(alloc)? {
        let told = hints.next();
        next = derive_group(alloc, &group, input.options, told, next, sink)?;
    }
    Ok(next)
}
