//! Encoding a generated problem.
ghost use Rattle.std.specs.Prelude.{◌≡◌, ◌≤◌, ◌^◌, None, Some, Err, IfOk};
ghost use Rattle.pb_base.specs.Problems.{IsWithinLimits};
ghost use Rattle.pb_desk.specs.Desk.{IsClosed};
ghost use Rattle.pb_gen.specs.Generated.{generated};
ghost use Rattle.pb_opb.specs.Faults.{Reads};
ghost use Rattle.pb_words.specs.BenchWords.{as_bench_words};
ghost use Rattle.pb_words.specs.inner.Fit.{IsFitBench};
ghost use Rattle.pb_suite.specs.Implementing.{Implements};
ghost use Rattle.pb_suite.specs.BenchSpec.{bench_spec};
ghost use Rattle.pb_suite.specs.Seen.{seen_from, Stays};

use crate::outcome::Outcome;
use crate::storing::{say_summary, store};
use pb_base::{NoMemory, Options, Problem};
use pb_desk::Desk;
use pb_encode::{MeasureFault, Names, measure};
use pb_gen::generate;
use pb_opb::{OpbFault, read_opb};
use pb_words::BenchArgs;
use std::alloc::Global;

// Reads a generated text as a problem.
fn generated_problem(alloc: Global, count: u32, seed: u32) -> Result<Problem, NoMemory>
    requires { count ≤ 2 ^ 24 }
    ensures reads { IfOk result (Reads (generated count seed)) }
    ensures within { IfOk result IsWithinLimits }
{
    let text = generate(alloc, count, seed)?;
    match read_opb(alloc, text.as_slice()) {
        Ok(problem) => Ok(problem),
        Err(OpbFault::NoMemory) => Err(NoMemory),
        // A generated text has no fault.
        Err(OpbFault::Token { .. }) => unreachable!(),
        Err(OpbFault::Limit { .. }) => unreachable!(),
    }
}

// Makes the CNF file of a generated problem, and says its size.
fn store_generated<D: Desk>(
    alloc: Global,
    problem: &Problem,
    asked: &BenchArgs<'_>,
    name: &str,
    desk: &mut D,
) -> Outcome
    requires closed { IsClosed (D.state desk.old) }
    requires within { IsWithinLimits problem.now }
    requires reads { Reads (generated asked.now.count asked.now.seed) problem.now }
    requires named { (as_bench_words asked.now).cnf ≡ Some name.now }
    ensures implements { let new = D.state desk.new in Implements (bench_spec (as_bench_words asked.now)) (seen_from new (D.state desk.old)) (seen_from new new) result }
    ensures stays { Stays (D.state desk.old) (D.state desk.new) }
{
    let names = Names {
        cnf: name,
        proof: None,
    };
    store(alloc, problem, &Options::default(), &names, desk)
}

// Says the size of a generated problem's encoding, of which no file is made.
fn say_size<D: Desk>(
    alloc: Global,
    problem: &Problem,
    asked: &BenchArgs<'_>,
    desk: &mut D,
) -> Outcome
    requires within { IsWithinLimits problem.now }
    requires reads { Reads (generated asked.now.count asked.now.seed) problem.now }
    requires unnamed { (as_bench_words asked.now).cnf ≡ None }
    ensures implements { let new = D.state desk.new in Implements (bench_spec (as_bench_words asked.now)) (seen_from new (D.state desk.old)) (seen_from new new) result }
    ensures stays { Stays (D.state desk.old) (D.state desk.new) }
{
    let options = Options::default();
    match measure(alloc, problem, &options) {
        Ok(summary) => say_summary(alloc, problem, &options, &summary, desk),
        Err(MeasureFault::NoMemory) => Outcome::NoMemory,
        Err(MeasureFault::Limit { which }) => Outcome::Limit {
            file: None,
            which,
            place: None,
        },
    }
}

/// Encodes a generated problem with the default options: prints its size, and makes its CNF file if that is named.
pub fn bench_file<D: Desk>(alloc: Global, asked: &BenchArgs<'_>, desk: &mut D) -> Outcome
    requires closed { IsClosed (D.state desk.old) }
    requires fit { IsFitBench (as_bench_words asked.now) }
    ensures implements { let new = D.state desk.new in Implements (bench_spec (as_bench_words asked.now)) (seen_from new (D.state desk.old)) (seen_from new new) result }
    ensures stays { Stays (D.state desk.old) (D.state desk.new) }
{
    let Ok(problem) = generated_problem(alloc, asked.count, asked.seed) else {
        return Outcome::NoMemory;
    };
    match asked.cnf {
        Some(name) => store_generated(alloc, &problem, asked, name, desk),
        None => say_size(alloc, &problem, asked, desk),
    }
}
