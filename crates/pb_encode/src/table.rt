//! The table of bounds on a problem's objective, where one is asked for.
ghost use Rattle.std.specs.Prelude.{◌≡◌, ◌≤◌, ◌^◌, IfOk};
ghost use Rattle.pb_base.specs.Problems.{IsWithinLimits};
ghost use Rattle.pb_norm.specs.Constraints.{weights};
ghost use Rattle.pb_norm.specs.Reduction.{by_weight};
ghost use Rattle.pb_family.specs.Budgets.{IsOverExactly, IfFits};
ghost use Rattle.pb_family.specs.Handing.{HandsIfMemory};
ghost use Rattle.pb_family.specs.StepSinks.{HandsFrom};
ghost use Rattle.pb_gentot.specs.BoundTable.{table_clauses, table_fresh};
ghost use Rattle.pb_gentot.specs.BoundTableSteps.{table_steps};
ghost use Rattle.pb_encode.specs.Clauses.{table_first};
ghost use Rattle.pb_encode.specs.Costs.{objective_form};
ghost use Rattle.pb_encode.specs.Tables.{table_terms};

use crate::encodable::Encodable;
use crate::objective::objective_form;
use pb_base::{NoMemory, Options, Problem, Terms};
use pb_family::{Built, ClauseSink, SinkResult, StepSink};
use pb_gentot::BoundTable;
use pb_norm::by_weight;
use std::alloc::Global;

// Returns the terms that the objective costs, the greatest coefficient first.
fn costs_of(alloc: Global, problem: &Problem) -> Result<Terms, NoMemory>
    requires { IsWithinLimits problem.now }
    ensures { IfOk result (λ terms. weights terms ≡ by_weight (objective_form problem.now).terms) }
{
    let form = objective_form(alloc, problem)?;
    Ok(by_weight(form))
}

// Returns the terms that the table is over: those of the objective if a table is requested, and else none.
fn table_terms(alloc: Global, problem: &Problem, options: &Options) -> Result<Terms, NoMemory>
    requires { IsWithinLimits problem.now }
    ensures { IfOk result (λ terms. weights terms ≡ table_terms options.now problem.now) }
{
    if options.table {
        costs_of(alloc, problem)
    } else {
        Ok(Terms::new(alloc))
    }
}

/// Builds the table of bounds on a problem's objective, if it has no more fresh variables than the budget; a table without rows if none
/// is requested. `NoMemory` is the only fault.
pub fn table_of(
    alloc: Global,
    problem: &Problem,
    options: &Options,
) -> Result<Built<BoundTable>, NoMemory>
    requires within { IsWithinLimits problem.now }
    ensures over { IfOk result (λ built. IsOverExactly (table_fresh (table_terms options.now problem.now)) options.now.budget built) }
    ensures terms { IfOk result (λ built. IfFits (λ t. t ≡ table_terms options.now problem.now) built) }
{
    let terms = table_terms(alloc, problem, options)?;
    BoundTable::build(alloc, &terms, options.budget)
}

/// Builds the table, whose fresh variables are known not to pass the budget.
pub fn table_within(
    alloc: Global,
    problem: &Problem,
    options: &Options,
) -> Result<BoundTable, NoMemory>
    requires within { IsWithinLimits problem.now }
    requires bounds { table_fresh (table_terms options.now problem.now) ≤ options.now.budget }
    ensures { IfOk result (λ table. table ≡ table_terms options.now problem.now) }
{
    let built = table_of(alloc, problem, options)?;
    match built {
        Built::Fits(table) => Ok(table),
        Built::Over => unreachable!(),
    }
}

/// Emits the clauses of the table.
pub fn stream_table<S: ClauseSink>(
    alloc: Global,
    input: &Encodable<'_>,
    first: u32,
    sink: &mut S,
) -> SinkResult
    requires first { first ≡ table_first input.now.options.now input.now.problem.now }
    ensures { HandsIfMemory (table_clauses (table_terms input.now.options.now input.now.problem.now) first) result (S.state sink.old) (S.state sink.new) }
{
    let table = table_within(alloc, input.problem, input.options)?;
    table.emit(alloc, first, sink)
}

/// Emits the derivation of the table.
pub fn derive_table<T: StepSink>(
    alloc: Global,
    input: &Encodable<'_>,
    first: u32,
    sink: &mut T,
) -> SinkResult
    requires first { first ≡ table_first input.now.options.now input.now.problem.now }
    requires few { (T.state sink.old).next ≤ 2 ^ 61 }
    ensures { HandsFrom (table_steps (table_terms input.now.options.now input.now.problem.now) first) result (T.state sink.old) (T.state sink.new) }
{
    let table = table_within(alloc, input.problem, input.options)?;
    table.derive(alloc, first, sink)
}
