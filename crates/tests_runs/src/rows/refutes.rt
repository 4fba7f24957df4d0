use super::cases::{assert_found, each_refuted};
use super::texts::{
    ALL_OUT, ENDS_EARLY, NO_PIGEONS, PIGEONS, REFUTE, UNSATISFIABLE, UNSATISFIABLE_CNF,
};
use super::{judged_by, run_widely};
use std::alloc::Global;

const CASES: &[(&str, &str, &str)] = &[
    (REFUTE, "4 0 2 3 1 0\n", "refuted\n"),
    (REFUTE, "4 0 2 3 0\n", "10 pbcnf: LRAT line 1: no conflict"),
    (REFUTE, "", "10 pbcnf: LRAT line 1: no empty clause"),
    (REFUTE, "3 0 2 0\n", "10 pbcnf: LRAT line 1: old id 3"),
    (REFUTE, "4 0 9 0\n", "10 pbcnf: LRAT line 1: unknown hint 9"),
    (
        REFUTE,
        "4 0 2 -3 1 0\n",
        "1 pbcnf: LRAT 1:7: expected lrat hint",
    ),
    // All lines are read.
    (
        REFUTE,
        "4 0 2 3 1 0\nc\n5 d 1\n",
        "1 pbcnf: LRAT 3:6: expected lrat hint",
    ),
    // A refutation that is not there.
    ("pbcnf refute a c p b", "", "4 pbcnf: read fault"),
];

// The derivation comes before the refutation, which is not there.
const UNFINISHED: &[(&str, &str, &str)] = &[(
    "pbcnf refute a c p b",
    "",
    "7 pbcnf: PROOF line 5: clauses left",
)];

// What is answered of a refutation of what is encoded of the problem, beside the derivation that is made with it.
fn refuted(alloc: Global, opb: &str, lrat: &str) -> Option<String> {
    let run = run_widely(alloc, "pbcnf encode a c p", opb.as_bytes())?;
    judged_by(alloc, &run, REFUTE, opb, lrat)
}

#[test]
fn refutations(rt: HostRuntime) {
    each_refuted(&rt, [UNSATISFIABLE, UNSATISFIABLE_CNF, ALL_OUT], CASES);
    each_refuted(
        &rt,
        [UNSATISFIABLE, UNSATISFIABLE_CNF, ENDS_EARLY],
        UNFINISHED,
    );
    let found = refuted(rt.alloc(), PIGEONS, NO_PIGEONS);
    assert_found(&rt, found, "refuted\n", REFUTE, "five pigeons");
}
