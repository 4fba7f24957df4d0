use super::cases::{each_encoded, each_told};
use super::run_widely;
use crate::runs::Run;
use pb_gen::generate;
use std::alloc::Global;

// What is said of the one statement of the seed 0.
const SAID: &str = "variables 11 original 11 fresh 0 clauses 1\n\
nothing 0 empty 0 clause 1 pairwise 0 ladder 0 product 0 counter 0 totalizer 0 diagram 0 tree 0 adder 0\n";

const ONE: &str = "p cnf 11 1\n3 -7 0\n";

// One statement, with a file and without.
const TOLD: &[(&str, &str, &str)] = &[("pbcnf bench 1 0", "", SAID)];

const ENCODED: &[(&str, &str, &str, &str)] = &[
    ("pbcnf bench 1 0 c", "", ONE, SAID),
    ("pbcnf bench 001 00 c", "", ONE, SAID),
];

// The run is done, made this file first, or none, and said what the other run said.
fn says_so(run: &Run, file: Option<&[u8]>, encoded: &Run) -> bool {
    run.outcome.status() == 0 && run.desk.made(0) == file && run.desk.said() == encoded.desk.said()
}

// A benchmark with these words makes this file, or none, and says what the other run said.
fn is_benched(alloc: Global, words: &str, file: Option<&[u8]>, encoded: &Run) -> bool {
    match run_widely(alloc, words, b"") {
        Some(run) => says_so(&run, file, encoded),
        None => false,
    }
}

// The run made a CNF, and a benchmark makes and says the same, and says the same without a file.
fn agree(alloc: Global, encoded: &Run) -> bool {
    let cnf = encoded.desk.made(0);
    cnf.unwrap_or(b"").starts_with(b"p cnf ")
        && is_benched(alloc, "pbcnf bench 1000 7 c", cnf, encoded)
        && is_benched(alloc, "pbcnf bench 1000 7", None, encoded)
}

#[test]
fn benches(rt: HostRuntime) {
    each_told(&rt, TOLD);
    each_encoded(&rt, ENCODED);
    // What is generated, encoded as any other problem, is what a benchmark encodes.
    let text = generate(rt.alloc(), 1000, 7).expect(&rt, "generated");
    let encoded = run_widely(rt.alloc(), "pbcnf encode a c", text.as_slice()).expect(
        &rt, "encoded",
    );
    let agree = agree(rt.alloc(), &encoded);
    assert!(rt; agree);
}
