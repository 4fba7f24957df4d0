//! The clauses of a problem, handed to a sink.
ghost use Rattle.std.specs.Prelude.{◌≡◌, ◌≤◌, ◌<◌, ◌+◌, ◌^◌, [], ◌∷◌, IfOk, IfSome};
ghost use Rattle.pb_family.specs.Handing.{HandsIfMemory};
ghost use Rattle.pb_encode.specs.Clauses.{loaded_clauses, table_first};
ghost use Rattle.pb_encode.specs.Groups.{group_clauses, group_fresh};
ghost use Rattle.pb_encode.specs.inner.Found.{found_group};
ghost use Rattle.pb_encode.specs.inner.Hints.{IsToldOf};
ghost use Rattle.pb_encode.specs.inner.GroupPlans.{IsSound};

use crate::encodable::Encodable;
use crate::group_plan::plan_group;
use crate::groups::{Found, Group, Groups};
use crate::hints::{HintsLeft, Tells};
use pb_base::{Lit, Options};
use pb_family::{ClauseSink, SinkResult};
use std::alloc::Global;

// Emits the clauses of a group, and returns the first number after its fresh variables.
fn stream_group<S: ClauseSink>(
    alloc: Global,
    group: &Group,
    options: &Options,
    told: Option<&Tells>,
    first: u32,
    sink: &mut S,
) -> SinkResult<u32>
    requires told { IfSome told (λ tells. IsToldOf options.now group.now tells.now) }
    requires sound { IsSound first group.now }
    requires low { 1 ≤ first }
    requires fits { first + group_fresh options.now group.now ≤ 2 ^ 31 }
    ensures next { IfOk result (λ next. next ≡ first + group_fresh options.now group.now) }
    ensures hands { HandsIfMemory (group_clauses options.now group.now first) result (S.state sink.old) (S.state sink.new) }
{
    let plan = plan_group(alloc, group, options, told)?;
    plan.emit(alloc, first, sink)
}

// Emits one clause, which has no fresh variables, and returns the number that it was given.
fn stream_clause<S: ClauseSink>(clause: &[Lit], first: u32, sink: &mut S) -> SinkResult<u32>
    ensures next { IfOk result (λ next. next ≡ first) }
    ensures hands { HandsIfMemory (clause.now ∷ []) result (S.state sink.old) (S.state sink.new) }
{
    sink.clause(clause)?;
    Ok(first)
}

// Emits the clauses of a group as it was found, and returns the first number after its fresh variables.
fn stream_found<S: ClauseSink>(
    alloc: Global,
    found: &Found,
    options: &Options,
    told: Option<&Tells>,
    first: u32,
    sink: &mut S,
) -> SinkResult<u32>
    requires told { IfSome told (λ tells. IsToldOf options.now (found_group found.now) tells.now) }
    requires sound { IsSound first (found_group found.now) }
    requires low { 1 ≤ first }
    requires fits { first + group_fresh options.now (found_group found.now) ≤ 2 ^ 31 }
    ensures next { IfOk result (λ next. next ≡ first + group_fresh options.now (found_group found.now)) }
    ensures hands { HandsIfMemory (group_clauses options.now (found_group found.now) first) result (S.state sink.old) (S.state sink.new) }
{
    match found {
        Found::Clause(clause) => stream_clause(clause.lits.as_slice(), first, sink),
        Found::Other(group) => stream_group(alloc, group, options, told, first, sink),
    }
}

/// Emits the clauses of all constraints, of which nothing is kept but what one statement needs, and returns the first number after their
/// fresh variables.
pub fn stream_loaded<S: ClauseSink>(
    alloc: Global,
    input: &Encodable<'_>,
    sink: &mut S,
) -> SinkResult<u32>
    ensures next { IfOk result (λ next. next ≡ table_first input.now.options.now input.now.problem.now) }
    ensures hands { HandsIfMemory (loaded_clauses input.now.options.now input.now.problem.now) result (S.state sink.old) (S.state sink.new) }
{
    let mut next = input.problem.originals() + 1;
    let mut hints = HintsLeft::of(input.hints);
    let mut groups = Groups::of(input.problem);
    while let Some(found) = groups.next_found(alloc)? {
        let told = hints.next();
        next = stream_found(alloc, &found, input.options, told, next, sink)?;
        groups.take_back(found);
    }
    Ok(next)
}
