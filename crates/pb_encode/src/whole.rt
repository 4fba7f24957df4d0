//! All clauses of a problem and their derivation, handed to a sink: those of its constraints, and then those of its table.
ghost use Rattle.std.specs.Prelude.{◌≡◌, ◌+◌, [], IfOk, OnOk, length};
ghost use Rattle.pb_base.specs.Problems.{IsWithinLimits};
ghost use Rattle.pb_norm.specs.Products.{loaded_of};
ghost use Rattle.pb_family.specs.Handing.{HandsIfMemory};
ghost use Rattle.pb_family.specs.StepSinks.{HandsFrom, HandsSteps};
ghost use Rattle.pb_encode.specs.Clauses.{problem_clauses, problem_counts};
ghost use Rattle.pb_encode.specs.Groups.{groups_of};
ghost use Rattle.pb_encode.specs.Steps.{problem_steps};
ghost use Rattle.pb_encode.specs.Summaries.{IsEncodable};
ghost use Rattle.pb_encode.specs.inner.Hints.{AreHintsOf, IsBlank};
ghost use Rattle.pb_encode.specs.inner.Streams.{steps_at_next};

use crate::derivation::derive_loaded;
use crate::encodable::Encodable;
use crate::fault::MeasureFault;
use crate::hints::Hints;
use crate::measuring::measure_telling;
use crate::streaming::stream_loaded;
use crate::table::{derive_table, stream_table};
use pb_base::{NoMemory, Options, Problem};
use pb_choice::Counts;
use pb_family::{ClauseSink, SinkResult, StepSink, derive_steps};
use pb_steps::Step;
use std::alloc::Global;

/// Emits the clauses of a problem: those of its constraints, of which nothing is kept but what one statement needs, and then those of its
/// table.
pub fn hand_told_clauses<S: ClauseSink>(
    alloc: Global,
    input: &Encodable<'_>,
    sink: &mut S,
) -> SinkResult
    ensures { HandsIfMemory (problem_clauses input.now.options.now input.now.problem.now) result (S.state sink.old) (S.state sink.new) }
{
    let first = stream_loaded(alloc, input, sink)?;
    stream_table(alloc, input, first, sink)
}

/// Emits the clauses of a problem on which there is no advice.
pub fn hand_clauses<S: ClauseSink>(
    alloc: Global,
    problem: &Problem,
    options: &Options,
    sink: &mut S,
) -> SinkResult
    requires within { IsWithinLimits problem.now }
    requires encodable { IsEncodable options.now problem.now }
    // Exactly the problem's clauses were emitted, in order, or a first part of their text until the sink failed or memory ran out.
    ensures { HandsIfMemory (problem_clauses options.now problem.now) result (S.state sink.old) (S.state sink.new) }
{
    let input = Encodable {
        problem,
        options,
        hints: &[],
    };
    hand_told_clauses(alloc, &input, sink)
}

// Returns the numbers of fresh variables and clauses of a problem that passes no limit, and notes which groups go to the adder.
fn counts_of(
    alloc: Global,
    problem: &Problem,
    options: &Options,
    hints: &mut Hints,
) -> Result<Counts, NoMemory>
    requires within { IsWithinLimits problem.now }
    requires encodable { IsEncodable options.now problem.now }
    requires none { IsBlank hints.old }
    ensures counts { IfOk result (λ counts. counts ≡ problem_counts options.now problem.now) }
    ensures told { OnOk result (AreHintsOf options.now (groups_of problem.now) hints.new.list.items) }
{
    match measure_telling(alloc, problem, options, hints) {
        Ok(summary) => Ok(Counts {
            fresh: (summary.vars - problem.originals()) as u64,
            clauses: summary.clauses,
        }),
        Err(MeasureFault::NoMemory) => Err(NoMemory),
        Err(MeasureFault::Limit { which: _ }) => unreachable!(),
    }
}

/// Emits the clauses of a problem, as `encode` writes them, and returns the numbers of fresh variables and clauses, which are counted
/// first.
pub fn stream_clauses<S: ClauseSink>(
    alloc: Global,
    problem: &Problem,
    options: &Options,
    sink: &mut S,
) -> SinkResult<Counts>
    requires within { IsWithinLimits problem.now }
    requires encodable { IsEncodable options.now problem.now }
    // The counts are the defined numbers of fresh variables and clauses.
    ensures counts { IfOk result (λ counts. counts ≡ problem_counts options.now problem.now) }
    // Exactly the problem's clauses were emitted, in order, or a first part of their text until the sink failed or memory ran out.
    ensures hands { HandsIfMemory (problem_clauses options.now problem.now) result (S.state sink.old) (S.state sink.new) }
{
    let mut hints = Hints::new(alloc);
    let counts = counts_of(alloc, problem, options, &mut hints)?;
    let input = Encodable {
        problem,
        options,
        hints: hints.as_slice(),
    };
    hand_told_clauses(alloc, &input, sink)?;
    Ok(counts)
}

// Emits the derivations of all constraints, and then that of the table.
fn derive_clauses<T: StepSink>(alloc: Global, input: &Encodable<'_>, sink: &mut T) -> SinkResult
    requires next { (T.state sink.old).next ≡ length (loaded_of input.now.problem.now) + 1 }
    ensures { HandsFrom (steps_at_next input.now.options.now input.now.problem.now) result (T.state sink.old) (T.state sink.new) }
{
    let next = derive_loaded(alloc, input, sink)?;
    derive_table(alloc, input, next.first, sink)
}

/// Emits the whole derivation of a problem's clauses.
pub fn stream_told_steps<T: StepSink>(
    alloc: Global,
    input: &Encodable<'_>,
    sink: &mut T,
) -> SinkResult
    requires next { (T.state sink.old).next ≡ length (loaded_of input.now.problem.now) + 1 }
    ensures { HandsSteps (problem_steps input.now.options.now input.now.problem.now) result (T.state sink.old) (T.state sink.new) }
{
    let count = sink.next_id() - 1;
    derive_steps(&Step::Head, &Step::Loaded { count }, sink)?;
    derive_clauses(alloc, input, sink)?;
    sink.step(&Step::End)
}

/// Emits the whole derivation of the clauses of a problem on which there is no advice.
pub fn stream_steps<T: StepSink>(
    alloc: Global,
    problem: &Problem,
    options: &Options,
    sink: &mut T,
) -> SinkResult
    requires within { IsWithinLimits problem.now }
    requires encodable { IsEncodable options.now problem.now }
    requires next { (T.state sink.old).next ≡ length (loaded_of problem.now) + 1 }
    // Exactly the steps of the problem's derivation were emitted, from the head line to `end`, or the first ones until the sink failed or
    // memory ran out.
    ensures { HandsSteps (problem_steps options.now problem.now) result (T.state sink.old) (T.state sink.new) }
{
    let input = Encodable {
        problem,
        options,
        hints: &[],
    };
    stream_told_steps(alloc, &input, sink)
}
