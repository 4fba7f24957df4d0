// Desks whose calls fail, or whose files have too little room.
ghost use Rattle.std.specs.Prelude.{◌≤◌, ◌<◌};

use super::{Asked, run_freely, run_on};
use crate::runs::{Run, is_silent};
use std::alloc::Global;

// The file that a run made in a slot, or nothing.
fn file_of(run: &Run, slot: u8) -> &[u8]
    requires { slot < 2 }
{
    run.desk.made(slot).unwrap_or(b"")
}

// Both runs made the same file in a slot, or none.
fn is_same(run: &Run, whole: &Run, slot: u8) -> bool
    requires { slot < 2 }
{
    let made = file_of(run, slot);
    let due = file_of(whole, slot);
    run.desk.made(slot).is_some() == whole.desk.made(slot).is_some() && made == due
}

// The file in a slot is a first part of what a whole run makes there.
fn is_front(run: &Run, whole: &Run, slot: u8) -> bool
    requires { slot < 2 }
{
    let made = file_of(run, slot);
    let due = file_of(whole, slot);
    due.starts_with(made)
}

// What is made and said is a first part of what a whole run does: a derivation only beside a whole CNF, and words only
// beside all files.
fn is_part(run: &Run, whole: &Run) -> bool {
    let is_cnf = is_same(run, whole, 0);
    let is_proof = is_same(run, whole, 1);
    let said = run.desk.said();
    let due = whole.desk.said();
    is_front(run, whole, 0)
        && is_front(run, whole, 1)
        && due.starts_with(said)
        && (run.desk.made(1).is_none() || is_cnf)
        && (said.is_empty() || (is_cnf && is_proof))
}

// What is left fits the status: all; nothing; a first part, in which words are wanting.
fn fits(run: &Run, whole: &Run) -> bool {
    let said = run.desk.said();
    let due = whole.desk.said();
    let is_said = said == due;
    match run.outcome.status() {
        0 => is_same(run, whole, 0) && is_same(run, whole, 1) && is_said,
        4 => is_silent(run),
        _ => is_part(run, whole) && !is_said,
    }
}

// How many calls move these bytes.
fn moves(bytes: &[u8], piece: usize) -> u64
    requires { 1 ≤ piece }
{
    bytes.len().div_ceil(piece) as u64
}

// How many calls read the first `count` texts: each is opened, and one more read finds its end.
fn reads_of(texts: [&[u8]; 5], count: usize, piece: usize) -> u64
    requires { 1 ≤ piece }
{
    let mut calls: u64 = 0;
    for text in texts.iter().take(count) {
        calls = calls.saturating_add(moves(text, piece)).saturating_add(2);
    }
    calls
}

// How many calls make the files, each of which is created and closed, and say the words.
fn writes_of(whole: &Run, piece: usize) -> u64
    requires { 1 ≤ piece }
{
    let mut calls = moves(whole.desk.said(), piece);
    for slot in 0..2 {
        if let Some(bytes) = whole.desk.made(slot) {
            calls = calls.saturating_add(moves(bytes, piece)).saturating_add(2);
        }
    }
    calls
}

// The status of a run of which the call of this number fails, where so many calls read, and then so many write.
fn status_at(call: u64, reads: u64, writes: u64) -> u8 {
    if call <= reads {
        4
    } else if call - reads <= writes {
        5
    } else {
        0
    }
}

// A run of which the call of this number fails ends with this status, and what it left fits.
fn ends(alloc: Global, asked: Asked, call: u64, piece: usize, status: u8, whole: &Run) -> bool
    requires { 1 ≤ piece }
{
    match run_on(alloc, asked, call, piece, 4096) {
        Some(run) => run.outcome.status() == status && fits(&run, whole),
        None => false,
    }
}

// Where each call fails in turn, the runs end as they should beside a whole one. The counts are exact, so that a fault that is
// passed over shows.
fn all_end(alloc: Global, asked: Asked, count: usize, piece: usize, whole: &Run) -> bool
    requires { 1 ≤ piece }
{
    let reads = reads_of(asked.texts, count, piece);
    let writes = writes_of(whole, piece);
    if whole.outcome.status() != 0 || reads > 10_000 || writes > 10_000 {
        return false;
    }
    for call in 1..=reads + writes + 1 {
        let status = status_at(call, reads, writes);
        if !ends(alloc, asked, call, piece, status, whole) {
            return false;
        }
    }
    true
}

// In this room the run makes and says as much as fits: the derivation only beside a whole CNF, and words only beside both.
fn fills(run: &Run, whole: &Run, room: usize) -> bool {
    let cnf = file_of(whole, 0).len();
    let proof = file_of(whole, 1).len();
    let said = whole.desk.said().len();
    let proof_room = if cnf <= room { room } else { 0 };
    let said_room = if proof <= room { proof_room } else { 0 };
    let is_proof_due = cnf <= room && whole.desk.made(1).is_some();
    let status = if said <= said_room { 0 } else { 5 };
    run.outcome.status() == status
        && fits(run, whole)
        && file_of(run, 0).len() == room.min(cnf)
        && file_of(run, 1).len() == proof_room.min(proof)
        && run.desk.said().len() == said_room.min(said)
        && run.desk.made(0).is_some() == whole.desk.made(0).is_some()
        && run.desk.made(1).is_some() == is_proof_due
}

// A run in this room fills it.
fn fills_room(alloc: Global, asked: Asked, room: usize, whole: &Run) -> bool {
    match run_on(alloc, asked, 0, 4096, room) {
        Some(run) => fills(&run, whole, room),
        None => false,
    }
}

// Each room up to the one that suffices is tried.
fn all_fill(alloc: Global, asked: Asked, whole: &Run) -> bool {
    let files = file_of(whole, 0).len().max(file_of(whole, 1).len());
    for room in 0..=files.max(whole.desk.said().len()) {
        if !fills_room(alloc, asked, room, whole) {
            return false;
        }
    }
    true
}

// By pieces of a byte each byte is a call, else each text is read and each file written in one piece. Each call fails in
// turn, and each room is too small in turn.
fn is_tried_beside(alloc: Global, asked: Asked, count: usize, whole: &Run) -> bool {
    all_end(alloc, asked, count, 1, whole)
        && all_end(alloc, asked, count, 4096, whole)
        && all_fill(alloc, asked, whole)
}

// The same beside the run on a desk that does not hinder it.
fn is_tried(alloc: Global, asked: Asked, count: usize) -> bool {
    match run_freely(alloc, asked) {
        Some(whole) => is_tried_beside(alloc, asked, count, &whole),
        None => false,
    }
}

// The same of the first `count` of two texts.
fn is_tried_over<'x>(
    alloc: Global,
    words: &'x str,
    first: &'x str,
    second: &'x str,
    count: usize,
) -> bool {
    let texts = [first.as_bytes(), second.as_bytes(), b"", b"", b""];
    is_tried(alloc, Asked { words, texts }, count)
}

// Exactly one of two variables.
const ONE: &str = "+1 x1 +1 x2 = 1 ;\n";

// What a solver prints of it.
const PRINTED: &str = "s SATISFIABLE\nv 1 -2 0\n";

// One of two variables, where the first costs 3 and the second 1, and 1 less in any case.
const COSTS: &str = "min: +3 x1 -1 ~x2 ;\n+1 x1 +1 x2 >= 1 ;\n";

// Two free names beside a number.
const NAMES: &str = "+1 rain +1 x2 +1 ~sun >= 2 ;\n";

// Three weights, of which a diagram is made.
const WEIGHTS: &str = "+4 ~x1 +3 ~x2 +2 ~x3 >= 4 ;\n";

// Its CNF.
const DIAGRAM: &[u8] = b"p cnf 6 5\n-4 -1 5 0\n-5 6 0\n-5 -2 0\n-6 -3 0\n4 0\n";

// At most two of the first four variables, by a sequential counter.
const COUNTER: &str = "p cnf 10 13\n-1 5 0\n-6 0\n-2 7 0\n-5 7 0\n-2 -5 8 0\n-6 8 0\n-2 -6 0\n\
-3 9 0\n-7 9 0\n-3 -7 10 0\n-8 10 0\n-3 -8 0\n-4 -10 0\n";

// The CNF and the derivation are made.
const DERIVE: &str = "pbcnf encode a d e";

// Words, the texts that a run has, and how many of these it reads.
const CASES: &[(&str, &str, &str, usize)] = &[
    ("pbcnf encode a d", ONE, "", 1),
    ("pbcnf encode a d", WEIGHTS, "", 1),
    ("pbcnf encode a d --at-most=2 --table", COSTS, "", 1),
    ("pbcnf wcnf a d", COSTS, "", 1),
    ("pbcnf decode a b", ONE, PRINTED, 2),
    ("pbcnf map a", NAMES, "", 1),
    ("pbcnf probe a x1 x2", COUNTER, "", 1),
    ("pbcnf bench 1 0", "", "", 0),
    ("pbcnf bench 1 0 d", "", "", 0),
    (DERIVE, WEIGHTS, "", 1),
];

#[test]
fn each_command(rt: HostRuntime) {
    for &(words, first, second, count) in CASES {
        let is_tried = is_tried_over(rt.alloc(), words, first, second, count);
        assert!(rt; is_tried, "at {words}");
    }
}

// The CNF and the derivation of a problem alone, by these words.
fn derived<'a>(words: &'a str, opb: &'a str) -> Asked<'a> {
    let texts = [opb.as_bytes(), b"", b"", b"", b""];
    Asked { words, texts }
}

// A problem, the CNF and the derivation that were made of it, a refutation, and what a solver printed.
fn texts_over<'a>(opb: &'a str, made: &'a Run, lrat: &'a str, model: &'a str) -> [&'a [u8]; 5] {
    [
        opb.as_bytes(),
        file_of(made, 0),
        file_of(made, 1),
        lrat.as_bytes(),
        model.as_bytes(),
    ]
}

// A run is tried that reads these, or the first of them.
fn is_check_tried<'a>(
    alloc: Global,
    words: &'a str,
    opb: &'a str,
    made: &'a Run,
    lrat: &'a str,
    count: usize,
) -> bool {
    let texts = texts_over(opb, made, lrat, PRINTED);
    is_tried(alloc, Asked { words, texts }, count)
}

// One of two variables, each of which costs 1.
const PAIR: &str = "min: +1 x1 +1 x2 ;\n+1 x1 +1 x2 >= 1 ;\n";

// One of two variables, and neither.
const NEITHER: &str = "+1 x1 +1 x2 >= 1 ;\n+1 ~x1 >= 1 ;\n+1 ~x2 >= 1 ;\n";

// The writing failed where the CNF is whole, no derivation is made, and nothing said.
fn is_not_ended(run: &Run) -> bool {
    run.outcome.status() == 5
        && run.desk.made(0) == Some(DIAGRAM)
        && run.desk.made(1).is_none()
        && run.desk.said().is_empty()
}

// True if a run is tried over what is made of a problem with the words before.
fn is_tried_over_made(
    alloc: Global,
    making: &str,
    words: &str,
    opb: &str,
    lrat: &str,
    count: usize,
) -> bool {
    match run_freely(alloc, derived(making, opb)) {
        Some(made) => is_check_tried(alloc, words, opb, &made, lrat, count),
        None => false,
    }
}

#[test]
fn derivations_and_refutations(rt: HostRuntime) {
    let is_checked = is_tried_over_made(rt.alloc(), DERIVE, "pbcnf check a b c", WEIGHTS, "", 3);
    let lrat = "4 0 2 3 1 0\n";
    let is_refuted = is_tried_over_made(
        rt.alloc(),
        DERIVE,
        "pbcnf refute a b c l",
        NEITHER,
        lrat,
        4,
    );
    let words = "pbcnf optimum a m b c l";
    let making = "pbcnf encode a d e --at-most=0";
    let is_proved = is_tried_over_made(rt.alloc(), making, words, PAIR, lrat, 5);
    assert!(rt;
        is_checked && is_refuted && is_proved,
        "check {is_checked}, refute {is_refuted}, optimum {is_proved}"
    );
    // The CNF is whole where it can't be ended, and no derivation is made: the text is opened and read to its end in two calls,
    // the file is created, written, and then closed.
    let run = run_on(rt.alloc(), derived(DERIVE, WEIGHTS), 6, 4096, 4096).expect(&rt, "run");
    let is_not_ended = is_not_ended(&run);
    assert!(rt; is_not_ended);
}
