//! Proving a solution optimal.
ghost use Rattle.std.specs.Prelude.{◌≡◌, ◌≤◌, ◌<◌, ◌^◌, length, IfOk, IsErrOf, OnOk};
ghost use Rattle.pb_base.specs.Problems.{IsWithinLimits};
ghost use Rattle.pb_desk.specs.Desk.{IfTold, IsClosed};
ghost use Rattle.pb_opb.specs.Bounded.{bound_weight, bounded};
ghost use Rattle.pb_opb.specs.declared.bound.BoundFault.TheVariants as fault;
ghost use Rattle.pb_words.specs.OptimumWords.{as_optimum_words};
ghost use Rattle.pb_words.specs.Parsed.Wanted.{Optimum};
ghost use Rattle.pb_suite.specs.Implementing.{Implements};
ghost use Rattle.pb_suite.specs.InTurn.{OpensInTurn};
ghost use Rattle.pb_suite.specs.OptimumSpec.{next_below, optimum_spec, IsReached};
ghost use Rattle.pb_suite.specs.Seen.{seen_from, Stays};
ghost use Rattle.pb_suite.specs.inner.Optima.{HasFree, IsAimedAt};

use crate::commands::decode::read_answer;
use crate::commands::refute::refute_opened;
use crate::opening::open_both;
use crate::outcome::Outcome;
use crate::reading::{bound_refusal, read_problem};
use pb_base::{Failed, NoMemory, Problem};
use pb_desk::Desk;
use pb_model::{Decoded, Model, decode, objective_of, write_optimum};
use pb_opb::{BoundFault, bounded};
use pb_words::OptimumArgs;
use std::alloc::Global;

// Returns the problem with the bound that is one below the value of a solution.
fn bounded_below(alloc: Global, problem: Problem, model: &Model) -> Result<Problem, BoundFault>
    requires within { IsWithinLimits problem }
    requires few { length problem.statements ≤ 2 ^ 24 }
    requires covers { length model.now.values ≡ problem.vars }
    ensures ok { IfOk result (λ p. p ≡ bounded problem (next_below problem model.now)) }
    ensures within { IfOk result IsWithinLimits }
    ensures light { OnOk result (bound_weight problem (next_below problem model.now) < 2 ^ 100) }
    ensures heavy { IsErrOf result fault.Weight → 2 ^ 100 ≤ bound_weight problem (next_below problem model.now) }
{
    let below = objective_of(&problem, &model.values) - 1;
    bounded(alloc, problem, below)
}

// Prints the solution of a model as an optimum, if the texts refute that any is worth less.
fn prove_least<D: Desk>(
    alloc: Global,
    problem: Problem,
    model: &Model,
    asked: &OptimumArgs<'_>,
    desk: &mut D,
) -> Outcome
    requires within { IsWithinLimits problem }
    requires few { length problem.statements ≤ 2 ^ 24 }
    requires covers { length model.now.values ≡ problem.vars }
    requires free { HasFree (D.state desk.old) }
    requires reached { IfTold (seen_from (D.state desk.old) (D.state desk.old)) (λ t. IsReached t.shelf (as_optimum_words asked.now) problem model.now) }
    ensures implements { let new = D.state desk.new in Implements (optimum_spec (as_optimum_words asked.now)) (seen_from new (D.state desk.old)) (seen_from new new) result }
    ensures stays { Stays (D.state desk.old) (D.state desk.new) }
{
    let mut text = Vec::new(alloc);
    match write_optimum(alloc, &problem, &model.values, &mut text) {
        Ok(()) => {}
        Err(NoMemory) => return Outcome::NoMemory,
    }
    let problem = match bounded_below(alloc, problem, model) {
        Ok(problem) => problem,
        Err(fault) => return bound_refusal(fault),
    };
    match open_both(asked.cnf, asked.proof, desk) {
        Ok(()) => refute_opened(alloc, &problem, asked.lrat, &text, desk),
        Err(Failed) => Outcome::ReadFault,
    }
}

// Prints the solution that a model gives, if it is one and none is worth less, or answers why not.
fn prove_decoded<D: Desk>(
    alloc: Global,
    problem: Problem,
    model: &Model,
    asked: &OptimumArgs<'_>,
    desk: &mut D,
) -> Outcome
    requires within { IsWithinLimits problem }
    requires few { length problem.statements ≤ 2 ^ 24 }
    requires covers { length model.now.values ≡ problem.vars }
    requires free { HasFree (D.state desk.old) }
    requires answered { IfTold (seen_from (D.state desk.old) (D.state desk.old)) (λ t. IsAimedAt t.shelf (as_optimum_words asked.now) problem model.now) }
    ensures implements { let new = D.state desk.new in Implements (optimum_spec (as_optimum_words asked.now)) (seen_from new (D.state desk.old)) (seen_from new new) result }
    ensures stays { Stays (D.state desk.old) (D.state desk.new) }
{
    match decode(&problem, model) {
        Decoded::NoModel => Outcome::NoModel,
        Decoded::Violates { statement } => Outcome::NotASolution { statement },
        Decoded::Solution => prove_least(alloc, problem, model, asked, desk),
    }
}

/// Prints the solution of a problem that a solver's model gives, if none is worth less. The values are tested against each statement, and
/// the other texts have to refute the problem with the bound one below the solution's value.
pub fn optimum_file<D: Desk>(alloc: Global, asked: &OptimumArgs<'_>, desk: &mut D) -> Outcome
    requires closed { IsClosed (D.state desk.old) }
    ensures implements { let new = D.state desk.new in Implements (optimum_spec (as_optimum_words asked.now)) (seen_from new (D.state desk.old)) (seen_from new new) result }
    ensures in_turn { let new = D.state desk.new in OpensInTurn (Optimum (as_optimum_words asked.now)) (seen_from new (D.state desk.old)) (seen_from new new) }
    ensures stays { Stays (D.state desk.old) (D.state desk.new) }
{
    let problem = match read_problem(alloc, asked.opb, None, desk) {
        Ok(problem) => problem,
        Err(outcome) => return outcome,
    };
    if problem.objective.is_none() {
        return Outcome::NoObjective;
    }
    let model = match read_answer(alloc, desk, 4, asked.model, problem.vars) {
        Ok(model) => model,
        Err(outcome) => return outcome,
    };
    prove_decoded(alloc, problem, &model, asked, desk)
}
