//! Whole runs of the program on desks in memory, and what tests ask of them.
ghost use Rattle.std.specs.Prelude.{◌≤◌};
ghost use Rattle.pb_desk.specs.Desk.{IsClosed};

use pb_base::{Bytes, Ids, NoMemory, Seq, Text};
use pb_desk::{Desk, MemoryDesk, Named, Shelf};
use pb_suite::{Outcome, run, run_in_memory};
use std::alloc::{Alloc, Global};

/// How a run ended, and what it left.
#[derive(Drop)]
pub struct Run {
    /// How it ended.
    pub outcome: Outcome,
    /// The desk, with what was made and said.
    pub desk: MemoryDesk,
}

/// The words that stand between blanks.
pub fn owned_words(alloc: Global, words: &str) -> Result<Vec<String>, NoMemory> {
    let mut owned = Vec::new(alloc);
    for word in words.split(' ') {
        owned.push(word.to_string(alloc)?)?;
    }
    Ok(owned)
}

/// A file of this name.
pub fn named(alloc: Global, name: &str, text: &[u8]) -> Result<Named, NoMemory> {
    Ok(Named {
        name: Text::from_string(name.to_string(alloc)?),
        bytes: Bytes::from_vec(text.to_vec(alloc)?),
    })
}

// These files come after the others.
fn put_files(alloc: Global, files: &mut Shelf, texts: &[(&str, &[u8])]) -> Result<(), NoMemory> {
    for &(name, text) in texts {
        files.push(named(alloc, name, text)?)?;
    }
    Ok(())
}

// The files of these names.
fn files_of(alloc: Global, texts: &[(&str, &[u8])]) -> Result<Shelf, NoMemory> {
    let mut files = Seq::new(alloc);
    put_files(alloc, &mut files, texts)?;
    Ok(files)
}

/// A run, of which nothing is known but what it leaves.
pub fn ended<D: Desk>(alloc: Global, words: &Vec<String>, desk: &mut D) -> Outcome
    requires { IsClosed (D.state desk.old) }
{
    run(alloc, words, desk)
}

/// A run with these words, with a blank between any two, on a desk with these files to read. Its call with the number `fails`
/// fails, counted from 1, and none where that is 0; a call moves at most `piece` bytes; each file and what is said have `room`
/// bytes.
pub fn run_over(
    alloc: Global,
    words: &str,
    texts: &[(&str, &[u8])],
    fails: u64,
    piece: usize,
    room: usize,
) -> Result<Run, NoMemory>
    requires { 1 ≤ piece }
{
    let owned = owned_words(alloc, words)?;
    let files = files_of(alloc, texts)?;
    let fails = Ids::from_vec(vec![in alloc; fails]?);
    let mut desk = MemoryDesk::new(alloc, files, fails, piece, room)?;
    let outcome = ended(alloc, &owned, &mut desk);
    Ok(Run { outcome, desk })
}

/// The same on a desk that does not hinder it.
pub fn run_freely(alloc: Global, words: &str, texts: &[(&str, &[u8])]) -> Result<Run, NoMemory> {
    run_over(alloc, words, texts, 0, 4096, 4096)
}

/// The status and the fault line of a run on files in memory, each of which has `room` bytes, as what is said has.
pub fn answer_in_memory(
    alloc: Global,
    words: &str,
    texts: &[(&str, &[u8])],
    room: usize,
) -> Option<String> {
    let owned = owned_words(alloc, words).ok()?;
    let files = files_of(alloc, texts).ok()?;
    let outcome = run_in_memory(alloc, &owned, files, room);
    format!(in alloc; "{} {}", outcome.status(), outcome).ok()
}

/// The run made and said nothing.
pub fn is_silent(run: &Run) -> bool {
    run.desk.made(0).is_none() && run.desk.made(1).is_none() && run.desk.said().is_empty()
}

/// The status and the fault line of a run that made and said nothing.
pub fn refusal_of(alloc: Global, run: &Run) -> Option<String> {
    if !is_silent(run) {
        return None;
    }
    format!(in alloc; "{} {}", run.outcome.status(), run.outcome).ok()
}
