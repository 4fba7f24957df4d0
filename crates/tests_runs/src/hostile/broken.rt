// Texts that are cut off, or have one byte replaced by another.
ghost use Rattle.std.specs.Prelude.{◌<◌};

use super::marks::{
    BOUNDED, BOUNDED_MODELS, BOUNDED_PROBLEMS, CHECKED_CNFS, CHECKED_DERIVATIONS, CHECKED_PROBLEMS,
    DECODED_MODELS, DECODED_PROBLEMS, ENCODED, MAPPED, OPTIMUM_MODELS, OPTIMUM_PROBLEMS, PROBED,
    REFUTED,
};
use super::{Asked, run_freely, run_on};
use crate::runs::{Run, is_silent, refusal_of};
use std::alloc::Global;

// The status of a run (`a` for 10), or `-` where it is done and makes and says nothing. A run that is not done makes and says nothing:
// where this is not so, the mark is another.
fn mark_of(run: &Run) -> char {
    match (run.outcome.status(), is_silent(run)) {
        (0, true) => '-',
        (0, false) => '0',
        (_, false) => '?',
        (status, true) => char::from_digit(status as u32, 16).unwrap_or('!'),
    }
}

// The mark of a run over these texts.
fn mark(alloc: Global, asked: Asked) -> char {
    match run_freely(alloc, asked) {
        Some(run) => mark_of(&run),
        None => '!',
    }
}

// The mark of a run over these texts, of which one is replaced.
fn mark_with(alloc: Global, asked: Asked, at: usize, text: &[u8]) -> char {
    let words = asked.words;
    let [first, second, third, fourth, fifth] = asked.texts;
    let texts = match at {
        0 => [text, second, third, fourth, fifth],
        1 => [first, text, third, fourth, fifth],
        2 => [first, second, text, fourth, fifth],
        3 => [first, second, third, text, fifth],
        _ => [first, second, third, fourth, text],
    };
    mark(alloc, Asked { words, texts })
}

// Runs over the texts of which one is cut before each of its bytes, and then stands whole, by their marks.
fn put_cuts(alloc: Global, marks: &mut String, asked: Asked, at: usize) -> Option<()>
    requires { at < 5 }
{
    let text = asked.texts[at];
    for count in 0..text.len() {
        let mark = mark_with(alloc, asked, at, &text[..count]);
        marks.push(mark).ok()?;
    }
    marks.push(mark(alloc, asked)).ok()
}

// The mark of a run over the texts of which one byte of one is replaced.
fn mark_at(alloc: Global, asked: Asked, at: usize, place: usize, byte: u8) -> Option<char>
    requires { at < 5 }
{
    let mut bytes = asked.texts[at].to_vec(alloc).ok()?;
    if let Some(found) = bytes.get_mut(place) {
        *found = byte;
    }
    Some(mark_with(alloc, asked, at, bytes.as_slice()))
}

// Runs over the texts of which each byte of one is replaced, by their marks.
fn put_replaced(alloc: Global, marks: &mut String, asked: Asked, at: usize, byte: u8) -> Option<()>
    requires { at < 5 }
{
    for place in 0..asked.texts[at].len() {
        let mark = mark_at(alloc, asked, at, place, byte)?;
        marks.push(mark).ok()?;
    }
    Some(())
}

// The marks of the cuts, and those with each byte replaced by a blank, `;`, a digit, a letter and a byte of no text.
fn put_broken(alloc: Global, marks: &mut String, asked: Asked, at: usize) -> Option<()>
    requires { at < 5 }
{
    put_cuts(alloc, marks, asked, at)?;
    for &byte in b" ;7x\xff" {
        marks.push('\n').ok()?;
        put_replaced(alloc, marks, asked, at, byte)?;
    }
    Some(())
}

// The same, where there is such a text.
fn broken(alloc: Global, asked: Asked, at: usize) -> Option<String> {
    if at >= 5 {
        return None;
    }
    let mut marks = String::new(alloc);
    put_broken(alloc, &mut marks, asked, at)?;
    Some(marks)
}

// The same of texts that are strings.
fn broken_of<'x>(
    alloc: Global,
    words: &'x str,
    texts: &'x [&'x str; 5],
    at: usize,
) -> Option<String> {
    let [first, second, third, fourth, fifth] = texts;
    let texts = [
        first.as_bytes(),
        second.as_bytes(),
        third.as_bytes(),
        fourth.as_bytes(),
        fifth.as_bytes(),
    ];
    broken(alloc, Asked { words, texts }, at)
}

// What is answered of a statement of one term too many, which nothing ends.
fn told_of_many(alloc: Global) -> Option<String> {
    let text = "1 x1 ".repeat(alloc, 1_048_577).ok()?;
    let asked = Asked {
        words: "pbcnf encode a d",
        texts: [text.as_bytes(), b"", b"", b"", b""],
    };
    let run = run_on(alloc, asked, 0, 65_536, 4096)?;
    refusal_of(alloc, &run)
}

const COSTS: [&str; 5] = [
    "* #variable= 2 #constraint= 1\nmin: +1 x2 ;\n+1 x1 +2 ~x2 >= 2 ;\n",
    "",
    "",
    "",
    "",
];

const LIGHT: [&str; 5] = ["min: +1 x2 ;\n+1 x1 +2 ~x2 >= 2 ;\n", "", "", "", ""];

const NAMES: [&str; 5] = ["min: +1 sun ;\n+1 x1 +2 ~sun >= 2 ;\n", "", "", "", ""];

const CNF: [&str; 5] = ["c note\np cnf 3 3\n1 -2 0\n2\n3 0\n-1 0\n", "", "", "", ""];

const MODEL: [&str; 5] = [
    "+1 x1 +1 x2 = 1 ;\n",
    "c note\ns SATISFIABLE\nv 1 -2 0\n",
    "",
    "",
    "",
];

const BOUNDED_MODEL: [&str; 5] = [
    "min: +2 x1 -1 ~x2 ;\n+1 x1 +1 x2 >= 1 ;\n",
    "s SATISFIABLE\nv -1 2 0\n",
    "",
    "",
    "",
];

const DERIVATION: [&str; 5] = [
    "+5 x1 +3 x2 +2 x3 >= 6 ;\n",
    "p cnf 4 2\n1 0\n2 3 0\n",
    "pseudo-Boolean derivation profile 1\nf 1\nrup +1 x1 >= 1 ; 1\nout 2\n\
pol 1 x1 w s\nout 3\nred +1 x4 >= 1 ; x4 -> 1\ndel 1 4\nend\n",
    "",
    "",
];

const REFUTATION: [&str; 5] = [
    "+1 x1 +1 x2 >= 1 ;\n+1 ~x1 >= 1 ;\n+1 ~x2 >= 1 ;\n",
    "p cnf 2 3\n1 2 0\n-1 0\n-2 0\n",
    "pseudo-Boolean derivation profile 1\nf 3\nout 1\nout 2\nout 3\nend\n",
    "c a\n4 1 0 3 1 0\n5 d 1 3 0\n6 0 4 2 0\n",
    "",
];

// A solution worth 3, and what refutes that one is worth 2.
const OPTIMUM: [&str; 5] = [
    "min: +3 x1 +4 x2 ;\n+1 x1 +1 x2 >= 1 ;\n",
    "p cnf 2 3\n1 2 0\n-1 0\n-2 0\n",
    "pseudo-Boolean derivation profile 1\nf 2\nrup +1 x1 +1 x2 >= 1 ; 1\nout 3\n\
rup +1 ~x1 >= 1 ; 2\nout 4\nrup +1 ~x2 >= 1 ; 2\nout 5\nend\n",
    "4 0 2 3 1 0\n",
    "s SATISFIABLE\nv 1 -2 0\n",
];

// Words, texts, which of these is broken, and the marks of the runs.
const CASES: &[(&str, &[&str; 5], usize, &str)] = &[
    ("pbcnf encode a d", &COSTS, 0, ENCODED),
    ("pbcnf wcnf a d", &COSTS, 0, ENCODED),
    // The bound is 2^100 - 2, so that a coefficient of 1 is the most that the objective may have.
    (
        "pbcnf encode a d --at-most=1267650600228229401496703205374",
        &LIGHT,
        0,
        BOUNDED,
    ),
    ("pbcnf map a", &NAMES, 0, MAPPED),
    ("pbcnf probe a x1", &CNF, 0, PROBED),
    ("pbcnf decode a b", &MODEL, 0, DECODED_PROBLEMS),
    ("pbcnf decode a b", &MODEL, 1, DECODED_MODELS),
    // Where the second variable is false, or the first is true, a statement or the bound is violated.
    (
        "pbcnf decode a b --at-most=0",
        &BOUNDED_MODEL,
        0,
        BOUNDED_PROBLEMS,
    ),
    (
        "pbcnf decode a b --at-most=0",
        &BOUNDED_MODEL,
        1,
        BOUNDED_MODELS,
    ),
    ("pbcnf check a b c", &DERIVATION, 0, CHECKED_PROBLEMS),
    ("pbcnf check a b c", &DERIVATION, 1, CHECKED_CNFS),
    ("pbcnf check a b c", &DERIVATION, 2, CHECKED_DERIVATIONS),
    ("pbcnf refute a b c l", &REFUTATION, 3, REFUTED),
    ("pbcnf optimum a m b c l", &OPTIMUM, 0, OPTIMUM_PROBLEMS),
    ("pbcnf optimum a m b c l", &OPTIMUM, 4, OPTIMUM_MODELS),
];

#[test]
fn broken_texts(rt: HostRuntime) {
    for &(words, texts, at, marks) in CASES {
        let found = broken_of(rt.alloc(), words, texts, at);
        assert_eq!(rt; found.as_deref(), Some(marks), "{words}, text {at}");
    }
    // A huge text.
    let found = told_of_many(rt.alloc());
    assert_eq!(rt;
        found.as_deref(),
        Some("3 pbcnf: OPB 1:5242881: limit terms")
    );
}
