// Clauses that a sink takes one by one, and steps.
ghost use Rattle.pb_base.specs.Problems.{IsWithinLimits};

use super::short_sink::ShortSink;
use crate::cases::assert_found;
use pb_base::{Options, Problem};
use pb_encode::{count_loaded, hand_clauses, measure, stream_clauses, stream_steps};
use pb_family::StepTextSink;
use pb_opb::read_opb;
use std::alloc::Global;

// How many variables and clauses a problem has, and from where its table is numbered, if it has one; how many fresh variables and
// clauses are emitted into a sink that accepts so many, or that this fails; and what the sink holds then.
fn streamed(alloc: Global, problem: &Problem, table: bool, left: u32) -> Option<String>
    requires { IsWithinLimits problem.now }
{
    let mut options = Options::default();
    options.table = table;
    let summary = measure(alloc, problem, &options).ok()?;
    let mut sink = ShortSink::new(alloc, left);
    let done = match stream_clauses(alloc, problem, &options, &mut sink) {
        Ok(counts) => format!(in alloc; "{} {}", counts.fresh, counts.clauses).ok()?,
        Err(_) => "failed".to_string(alloc).ok()?,
    };
    let lines = str::from_utf8(sink.text()).ok()?;
    format!(in alloc;
        "{} {} {:?} {done}\n{lines}",
        summary.vars, summary.clauses, summary.table
    )
    .ok()
}

// The same of the problem of a text.
fn streamed_text(alloc: Global, text: &str, table: bool, left: u32) -> Option<String> {
    let problem = read_opb(alloc, text.as_bytes()).ok()?;
    streamed(alloc, &problem, table, left)
}

const ONE_OF_TWO: &str = "+1 x1 +1 x2 = 1 ;";

// Problems, whether with a table, how many clauses are accepted, and what is expected.
const CASES: &[(&str, bool, u32, &str)] = &[
    // Sinks that fail.
    (ONE_OF_TWO, false, 0, "2 2 None failed\n"),
    (ONE_OF_TWO, false, 1, "2 2 None failed\n1 2 0\n"),
    (ONE_OF_TWO, false, 2, "2 2 None 0 2\n1 2 0\n-1 -2 0\n"),
    // A table comes last.
    (
        "min: +3 x1 -1 ~x2 ;\n+1 x1 +1 x2 >= 1 ;\n",
        true,
        9,
        "5 6 Some(3) 3 6\n1 2 0\n-1 4 0\n-2 3 0\n-1 -2 5 0\n-4 3 0\n-5 4 0\n",
    ),
];

// What a sink holds that was given the clauses of a problem, of which it takes so many, without their number; and whether all were taken.
fn handed(alloc: Global, problem: &Problem, left: u32) -> Option<String>
    requires { IsWithinLimits problem.now }
{
    let options = Options::default();
    let _ = measure(alloc, problem, &options).ok()?;
    let mut sink = ShortSink::new(alloc, left);
    let are_taken = hand_clauses(alloc, problem, &options, &mut sink).is_ok();
    let lines = str::from_utf8(sink.text()).ok()?;
    format!(in alloc; "{are_taken}\n{lines}").ok()
}

// The same of the problem of a text.
fn handed_text(alloc: Global, text: &str, left: u32) -> Option<String> {
    let problem = read_opb(alloc, text.as_bytes()).ok()?;
    handed(alloc, &problem, left)
}

// How many clauses of one of two are accepted, and what is expected.
const HANDED: &[(u32, &str)] = &[(1, "false\n1 2 0\n"), (2, "true\n1 2 0\n-1 -2 0\n")];

// The derivation of a problem's clauses.
fn derived(alloc: Global, problem: &Problem) -> Option<String>
    requires { IsWithinLimits problem.now }
{
    let options = Options::default();
    let _ = measure(alloc, problem, &options).ok()?;
    let mut sink = StepTextSink::new(alloc, count_loaded(problem) + 1);
    stream_steps(alloc, problem, &options, &mut sink).ok()?;
    str::from_utf8(sink.text()).ok()?.to_string(alloc).ok()
}

// The same of the problem of a text.
fn derived_text(alloc: Global, text: &str) -> Option<String> {
    let problem = read_opb(alloc, text.as_bytes()).ok()?;
    derived(alloc, &problem)
}

// Each clause follows from its half by propagation.
const STEPS: &str = "pseudo-Boolean derivation profile 1\nf 2\n\
rup +1 x1 +1 x2 >= 1 ; 1\nout 3\nrup +1 ~x1 +1 ~x2 >= 1 ; 2\nout 4\nend\n";

#[test]
fn clauses_and_steps_are_handed(rt: HostRuntime) {
    for &(left, expected) in HANDED {
        let found = handed_text(rt.alloc(), ONE_OF_TWO, left);
        assert_found(&rt, found, expected, ONE_OF_TWO);
    }
    let found = derived_text(rt.alloc(), ONE_OF_TWO);
    assert_found(&rt, found, STEPS, ONE_OF_TWO);
}

#[test]
fn streams(rt: HostRuntime) {
    for &(text, table, left, expected) in CASES {
        let found = streamed_text(rt.alloc(), text, table, left);
        assert_found(&rt, found, expected, text);
    }
}
