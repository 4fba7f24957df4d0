//! Worked examples: what runs make, say and answer.
mod benches;
mod bounds;
mod cases;
mod checks;
mod decodes;
mod derivations;
mod encodes;
mod equalities;
mod in_memory;
mod maps;
mod optima;
mod probes;
mod recorded;
mod refuses;
mod refutes;
mod sizes;
mod summaries;
mod tables;
mod texts;
mod wcnfs;
mod words;

use crate::runs::{Run, refusal_of, run_freely, run_over};
use std::alloc::Global;
use summaries::summary;

// What the run says, where it is done, or its status and its fault line, where it says nothing. It makes no file.
fn told_of(alloc: Global, run: &Run) -> Option<String> {
    if run.outcome.status() != 0 {
        return refusal_of(alloc, run);
    }
    if run.desk.made(0).is_some() || run.desk.made(1).is_some() {
        return None;
    }
    str::from_utf8(run.desk.said()).ok()?.to_string(alloc).ok()
}

// What is answered to these words on a desk with these files, which does not hinder it.
fn told(alloc: Global, words: &str, texts: &[(&str, &[u8])]) -> Option<String> {
    let run = run_freely(alloc, words, texts).ok()?;
    told_of(alloc, &run)
}

// The one file that is made of a text with these words.
fn made(alloc: Global, words: &str, text: &str) -> Option<String> {
    let run = run_freely(alloc, words, &[("a", text.as_bytes())]).ok()?;
    if run.outcome.status() != 0 || run.desk.made(1).is_some() {
        return None;
    }
    str::from_utf8(run.desk.made(0)?)
        .ok()?
        .to_string(alloc)
        .ok()
}

// Stands for any file.
const ANY: &str = "*";

// The run is done, made this one file, and said this.
fn is_done(run: &Run, file: &str, said: &str) -> bool {
    let made = run.desk.made(0);
    run.outcome.status() == 0
        && made.is_some()
        && (file == ANY || made == Some(file.as_bytes()))
        && run.desk.made(1).is_none()
        && run.desk.said() == said.as_bytes()
}

// With these words, this one file is made of the text, and this summary is said.
fn is_encoded(alloc: Global, words: &str, text: &str, file: &str, said: &str) -> Option<bool> {
    let run = run_freely(alloc, words, &[("a", text.as_bytes())]).ok()?;
    let said = summary(alloc, said)?;
    Some(is_done(&run, file, said.as_str()))
}

// A run with room for long texts.
fn run_widely(alloc: Global, words: &str, text: &[u8]) -> Option<Run> {
    run_over(alloc, words, &[("a", text)], 0, 4096, 1 << 20).ok()
}

// What is answered of the problem `a`, the CNF `c`, the derivation `p` and the refutation `l`, which `check` does not open.
fn judged(
    alloc: Global,
    words: &str,
    opb: &str,
    cnf: &[u8],
    proof: &[u8],
    lrat: &str,
) -> Option<String> {
    let texts = [
        ("a", opb.as_bytes()),
        ("c", cnf),
        ("p", proof),
        ("l", lrat.as_bytes()),
    ];
    told(alloc, words, &texts)
}

// The same of the CNF and the derivation that a run made of the problem.
fn judged_by(alloc: Global, run: &Run, words: &str, opb: &str, lrat: &str) -> Option<String> {
    let cnf = run.desk.made(0)?;
    let proof = run.desk.made(1)?;
    judged(alloc, words, opb, cnf, proof, lrat)
}
