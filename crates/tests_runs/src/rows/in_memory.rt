use super::cases::assert_found;
use super::texts::{
    ALL_OUT, CHECK, ENDS_EARLY, LRAT, REFUTE, UNSATISFIABLE, UNSATISFIABLE_CNF, USAGE,
};
use crate::runs::answer_in_memory;
use std::alloc::Global;

const DONE: &str = "0 ";

const WRITE_FAULT: &str = "5 pbcnf: write fault";

// Words, the room of each file and of what is said, and the status with the fault line. The CNF has 26 bytes, and its summary 145.
const CASES: &[(&str, usize, &str)] = &[
    ("pbcnf encode a d", 145, DONE),
    ("pbcnf encode a d", 144, WRITE_FAULT),
    ("pbcnf encode a d", 25, WRITE_FAULT),
    (CHECK, 9, DONE),
    (CHECK, 8, WRITE_FAULT),
    (
        "pbcnf check a c q",
        9,
        "7 pbcnf: PROOF line 5: clauses left",
    ),
    (REFUTE, 8, DONE),
    (REFUTE, 7, WRITE_FAULT),
    ("pbcnf refute a c p b", 8, "4 pbcnf: read fault"),
    ("pbcnf encode", 145, USAGE),
];

// What is answered beside a problem without a solution, its CNF, two derivations and a refutation.
fn answer(alloc: Global, words: &str, room: usize) -> Option<String> {
    let texts = [
        ("a", UNSATISFIABLE.as_bytes()),
        ("c", UNSATISFIABLE_CNF.as_bytes()),
        ("p", ALL_OUT.as_bytes()),
        ("q", ENDS_EARLY.as_bytes()),
        ("l", LRAT.as_bytes()),
    ];
    answer_in_memory(alloc, words, &texts, room)
}

#[test]
fn runs_in_memory(rt: HostRuntime) {
    for &(words, room, expected) in CASES {
        let found = answer(rt.alloc(), words, room);
        assert_found(&rt, found, expected, words, UNSATISFIABLE);
    }
}
