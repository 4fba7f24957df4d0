//! Broken texts, desks that fail, and desks with too little room: what runs over them come to.
mod broken;
mod failing;
mod marks;

ghost use Rattle.std.specs.Prelude.{◌≤◌};

use crate::runs::{Run, run_over};
use std::alloc::Global;

// The words of a run, and the texts of the files `a`, `b`, `c`, `l` and `m`. A run that reads fewer does not open the others.
#[derive(Clone, Copy)]
struct Asked<'a> {
    words: &'a str,
    texts: [&'a [u8]; 5],
}

// A run on a desk with these files, whose call of this number fails, and none where it is 0; a call moves so many bytes, and
// each file and what is said have so much room.
fn run_on(alloc: Global, asked: Asked, call: u64, piece: usize, room: usize) -> Option<Run>
    requires { 1 ≤ piece }
{
    let [first, second, third, fourth, fifth] = asked.texts;
    let texts = [
        ("a", first),
        ("b", second),
        ("c", third),
        ("l", fourth),
        ("m", fifth),
    ];
    run_over(alloc, asked.words, &texts, call, piece, room).ok()
}

// The same on a desk that does not hinder it.
fn run_freely(alloc: Global, asked: Asked) -> Option<Run> {
    run_on(alloc, asked, 0, 4096, 4096)
}
