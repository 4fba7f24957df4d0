//! Tables of cases, each case tried by itself. The loops and assertions are proved once here, since that takes much longer than a
//! call.

use super::checks::checked;
use super::decodes::decoded;
use super::derivations::is_derived;
use super::{is_encoded, judged, made, told};
use std::alloc::{Alloc, Global};
use std::process::Abort;

// This is what was found of a text with these words.
pub fn assert_found(rt: &impl Abort, found: Option<String>, due: &str, words: &str, text: &str) {
    assert_eq!(rt; found.as_deref(), Some(due), "{words} at {text}");
}

// What is expected of a text with these words was found.
fn assert_due(rt: &impl Abort, is_due: bool, words: &str, text: &str) {
    assert!(rt; is_due, "{words} at {text}");
}

// With each of these words, this is answered of the text, and no file is made.
pub fn each_told<R: Abort + Alloc<A = Global>>(rt: &R, cases: &[(&str, &str, &str)]) {
    for &(words, text, line) in cases {
        let found = told(rt.alloc(), words, &[("a", text.as_bytes())]);
        assert_found(rt, found, line, words, text);
    }
}

// With each of these words, this one file is made of the text.
pub fn each_made<R: Abort + Alloc<A = Global>>(rt: &R, cases: &[(&str, &str, &str)]) {
    for &(words, text, file) in cases {
        let found = made(rt.alloc(), words, text);
        assert_found(rt, found, file, words, text);
    }
}

// With each of these words, this one file is made of the text, and this summary is said.
pub fn each_encoded<R: Abort + Alloc<A = Global>>(rt: &R, cases: &[(&str, &str, &str, &str)]) {
    for &(words, text, file, said) in cases {
        let found = is_encoded(rt.alloc(), words, text, file, said);
        assert_due(rt, found == Some(true), words, text);
    }
}

// With each of these words, this is answered of the problem and what a solver printed.
pub fn each_decoded<R: Abort + Alloc<A = Global>>(rt: &R, cases: &[(&str, &str, &str, &str)]) {
    for &(words, opb, printed, line) in cases {
        let found = decoded(rt.alloc(), words, opb, printed);
        assert_found(rt, found, line, words, printed);
    }
}

// With each of these options and bounds, a derivation is made of the text that is accepted.
pub fn each_derived<R: Abort + Alloc<A = Global>>(rt: &R, cases: &[(&str, &str, &str)]) {
    for &(options, bound, text) in cases {
        let found = is_derived(rt.alloc(), options, bound, text);
        assert_due(rt, found == Some(true), options, text);
    }
}

// With each of these words, this is answered of a derivation with these lines after its first, beside the problem and the CNF.
pub fn each_checked<R: Abort + Alloc<A = Global>>(
    rt: &R,
    opb: &str,
    cnf: &str,
    cases: &[(&str, &str, &str)],
) {
    for &(words, lines, line) in cases {
        let found = checked(rt.alloc(), words, opb, cnf, lines);
        assert_found(rt, found, line, words, lines);
    }
}

// With each of these words, this is answered of a refutation, beside the problem, the CNF and the derivation.
pub fn each_refuted<R: Abort + Alloc<A = Global>>(
    rt: &R,
    texts: [&str; 3],
    cases: &[(&str, &str, &str)],
) {
    let [opb, cnf, proof] = texts;
    for &(words, lrat, line) in cases {
        let found = judged(
            rt.alloc(),
            words,
            opb,
            cnf.as_bytes(),
            proof.as_bytes(),
            lrat,
        );
        assert_found(rt, found, line, words, lrat);
    }
}
