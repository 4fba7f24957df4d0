use super::cases::assert_found;
use super::{run_widely, told};
use crate::runs::Run;
use std::alloc::Global;

const OPTIMUM: &str = "pbcnf optimum a m c p l";

// One of two variables, each of which costs 1: the optimum is 1.
const PAIR: &str = "min: +1 x1 +1 x2 ;\n+1 x1 +1 x2 >= 1 ;\n";

// The same without an objective.
const AIMLESS: &str = "+1 x1 +1 x2 >= 1 ;\n";

// The same for nothing.
const FREE: &str = "min: ;\n+1 x1 +1 x2 >= 1 ;\n";

const LEAST: &str = "s SATISFIABLE\nv 1 -2 0\n";

// A solution that costs one more.
const WORSE: &str = "s SATISFIABLE\nv 1 2 0\n";

// The clauses of the pair with a bound of 0 are `1 2`, `-1` and `-2`.
const REFUTED: &str = "4 0 2 3 1 0\n";

// A problem, what a solver printed of it, a refutation, and what is answered of them beside the files that are made of the pair with the
// bound 0.
const CASES: &[(&str, &str, &str, &str)] = &[
    (PAIR, LEAST, REFUTED, "o 1\ns OPTIMUM FOUND\nv x1 -x2\n"),
    // The files have to refute the bound one below the value, and no lower one.
    (
        PAIR,
        WORSE,
        REFUTED,
        "7 pbcnf: PROOF line 5: not propagated",
    ),
    (PAIR, LEAST, "", "10 pbcnf: LRAT line 1: no empty clause"),
    (
        PAIR,
        LEAST,
        "4 0 2 0\n",
        "10 pbcnf: LRAT line 1: no conflict",
    ),
    (PAIR, LEAST, "x\n", "1 pbcnf: LRAT 1:1: expected lrat id"),
    (
        PAIR,
        "s SATISFIABLE\nv -1 -2 0\n",
        REFUTED,
        "8 pbcnf: statement 1 is violated",
    ),
    (PAIR, "s UNSATISFIABLE\n", REFUTED, "9 pbcnf: no model"),
    (
        PAIR,
        "v 1 -1 0\n",
        REFUTED,
        "1 pbcnf: MODEL 1:5: expected opposite",
    ),
    (AIMLESS, LEAST, REFUTED, "1 pbcnf: OPB: no objective"),
    // That there is no objective is reported before what the solver's text says.
    (AIMLESS, "x\n", "x\n", "1 pbcnf: OPB: no objective"),
    (
        "+1 x1\n",
        "x\n",
        "x\n",
        "1 pbcnf: OPB 2:1: expected a coefficient or a relation",
    ),
];

// What is answered of these texts, of which the CNF and the derivation are those that a run made.
fn judged_beside(alloc: Global, run: &Run, opb: &str, model: &str, lrat: &str) -> Option<String> {
    let texts = [
        ("a", opb.as_bytes()),
        ("m", model.as_bytes()),
        ("c", run.desk.made(0)?),
        ("p", run.desk.made(1)?),
        ("l", lrat.as_bytes()),
    ];
    told(alloc, OPTIMUM, &texts)
}

// The same where they are made of a problem with these words.
fn judged_with(alloc: Global, words: &str, opb: &str, model: &str, lrat: &str) -> Option<String> {
    let run = run_widely(alloc, words, opb.as_bytes())?;
    judged_beside(alloc, &run, opb, model, lrat)
}

#[test]
fn optima(rt: HostRuntime) {
    let alloc = rt.alloc();
    let run = run_widely(alloc, "pbcnf encode a c p --at-most=0", PAIR.as_bytes());
    for &(opb, model, lrat, due) in CASES {
        let found = run
            .as_ref()
            .and_then(|run| judged_beside(alloc, run, opb, model, lrat));
        assert_found(&rt, found, due, OPTIMUM, opb);
    }
    let words = "pbcnf encode a c p --at-most-minus=1";
    let found = judged_with(alloc, words, FREE, WORSE, "3 0 2 0\n");
    assert_found(&rt, found, "o 0\ns OPTIMUM FOUND\nv x1 x2\n", words, FREE);
}
