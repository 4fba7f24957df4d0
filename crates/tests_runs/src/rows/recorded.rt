//! Runs over files of the system, whose calls are kept.
use super::texts::{ACCEPTED, CLAUSE, ONE_OF_TWO, ONE_OF_TWO_CNF};
use crate::recorder::{Keeper, Kept, Recorder};
use crate::replay::are_given;
use crate::runs::{ended, named, owned_words};
use pb_base::{Bytes, NoMemory, Seq, Text};
use pb_desk::{Named, Shelf};
use pb_files::{Host, RealDesk};
use pb_suite::Outcome;
use std::alloc::{Alloc, Global};
use std::fs;
use std::process::Abort;

// A record of calls, the newest first, over files that are supposed to hold this. After each call it asks whether all were answered as
// these files give, and writes to files of the system what it says.
#[derive(Drop)]
struct Record<'a, R: Abort + Alloc<A = Global>> {
    rt: &'a R,
    system: &'a HostRuntime,
    files: &'a [Named],
    calls: Vec<Kept>,
}

impl<'a, R: Abort + Alloc<A = Global>> Keeper for Record<'a, R> {
    ghost use Rattle.std.specs.Prelude.{map};
    ghost use Rattle.tests_runs.specs.Records.{call_of};

    ghost kept = { λ keeper. map call_of keeper.calls.items };

    fn keep(&mut self, call: Kept) {
        match self.calls.insert(0, call) {
            Ok(()) => judge(self.rt, self.system, self.files, self.calls.as_slice()),
            Err(_) => self.rt.abort(),
        }
    }

    fn copy(&self, bytes: &[u8]) -> Bytes {
        match bytes.to_vec(self.rt.alloc()) {
            Ok(copy) => Bytes::from_vec(copy),
            Err(_) => self.rt.abort(),
        }
    }

    fn copy_name(&self, name: &str) -> Text {
        match name.to_string(self.rt.alloc()) {
            Ok(copy) => Text::from_string(copy),
            Err(_) => self.rt.abort(),
        }
    }
}

// The part of a piece that the call gave to the file of slot 0, or else the part that it said.
fn taken(call: &Kept, is_said: bool) -> &[u8] {
    match call {
        Kept::Write(0, piece, Ok(count)) if !is_said => {
            piece.as_slice().get(..*count).unwrap_or(&[])
        }
        Kept::Say(piece, Ok(count)) if is_said => piece.as_slice().get(..*count).unwrap_or(&[]),
        _ => &[],
    }
}

// What the record says that the system took for the file of slot 0, or else to say.
fn told(alloc: Global, calls: &[Kept], is_said: bool) -> Option<Vec<u8>> {
    let mut bytes = Vec::new(alloc);
    for call in calls.iter().rev() {
        bytes.extend_from_slice(taken(call, is_said)).ok()?;
    }
    Some(bytes)
}

// Lays the texts into files of the system, and says what these hold.
fn laid(alloc: Global, system: &HostRuntime, texts: &[(&str, &str)]) -> Option<Shelf> {
    let mut files = Seq::new(alloc);
    for &(name, text) in texts {
        fs::write(system, name, text).ok()?;
        let file = named(alloc, name, text.as_bytes()).ok()?;
        files.push(file).ok()?;
    }
    Some(files)
}

// Whether the system's file holds this text.
fn holds(system: &HostRuntime, name: &str, text: &str) -> bool {
    match fs::read_to_string(system, name) {
        Ok(kept) => kept.as_str() == text,
        Err(_) => false,
    }
}

// The files that a run makes, and those that say what its record says of it.
const MADE: &str = "runs_made.tmp";

const TOLD: [&str; 2] = ["runs_told_made.tmp", "runs_told_said.tmp"];

// Whether each call was answered as the files give, and not as no file gives; it writes what the record says.
fn is_told(alloc: Global, system: &HostRuntime, files: &[Named], calls: &[Kept]) -> Option<bool> {
    let made = told(alloc, calls, false)?;
    let said = told(alloc, calls, true)?;
    fs::write(system, TOLD[0], made.as_slice()).ok()?;
    fs::write(system, TOLD[1], said.as_slice()).ok()?;
    Some(are_given(files, calls) && !are_given(&[], calls))
}

// The same, or the test ends.
fn judge<R: Abort + Alloc<A = Global>>(
    rt: &R,
    system: &HostRuntime,
    files: &[Named],
    calls: &[Kept],
) {
    let is_given = is_told(rt.alloc(), system, files, calls);
    assert!(rt;
        is_given == Some(true),
        "a call is not answered as the files give"
    );
}

// How a run with these words over the system's files ends, which are supposed to hold this.
fn outcome_of<R: Abort + Alloc<A = Global>>(
    rt: &R,
    system: &HostRuntime,
    words: &str,
    files: &[Named],
) -> Result<Outcome, NoMemory> {
    let owned = owned_words(rt.alloc(), words)?;
    let keeper = Record {
        rt,
        system,
        files,
        calls: Vec::new(rt.alloc()),
    };
    let recorder = Recorder {
        system: Host::new(system),
        files,
        keeper,
    };
    Ok(ended(rt.alloc(), &owned, &mut RealDesk::new(recorder)))
}

// Whether a run over files with these texts is done, and what it made of slot 0 and said is this, by its record and by the system's
// file.
fn is_as_recorded<R: Abort + Alloc<A = Global>>(
    rt: &R,
    system: &HostRuntime,
    words: &str,
    texts: &[(&str, &str)],
    made: &str,
    said: &str,
) -> Option<bool> {
    let files = laid(rt.alloc(), system, texts)?;
    let outcome = outcome_of(rt, system, words, files.as_slice()).ok()?;
    let is_held = made.is_empty() || holds(system, MADE, made);
    let is_said = holds(system, TOLD[0], made) && holds(system, TOLD[1], said);
    Some(outcome.status() == 0 && is_held && is_said)
}

// What a run is asked, the texts of its files, what it makes of slot 0 and what it says.
const CASES: &[(&str, &[(&str, &str)], &str, &str)] = &[
    (
        "pbcnf encode runs_opb.tmp runs_made.tmp",
        &[("runs_opb.tmp", CLAUSE)],
        "p cnf 2 1\n1 2 0\n",
        "variables 2 original 2 fresh 0 clauses 1\nnothing 0 empty 0 clause 1 pairwise 0 ladder 0 product 0 counter 0 totalizer 0 diagram 0 tree 0 adder 0\n",
    ),
    (
        "pbcnf check runs_opb.tmp runs_cnf.tmp runs_proof.tmp",
        &[
            ("runs_opb.tmp", ONE_OF_TWO),
            ("runs_cnf.tmp", ONE_OF_TWO_CNF),
            (
                "runs_proof.tmp",
                "pseudo-Boolean derivation profile 1\nf 2\nout 1\nout 2\nend\n",
            ),
        ],
        "",
        ACCEPTED,
    ),
];

// Takes the files away.
fn clear(system: &HostRuntime) {
    for name in [
        "runs_opb.tmp",
        "runs_cnf.tmp",
        "runs_proof.tmp",
        MADE,
        TOLD[0],
        TOLD[1],
    ] {
        let _ = fs::remove_file(system, name);
    }
}

#[test]
fn runs_over_files_are_as_recorded(rt: HostRuntime) {
    for &(words, texts, made, said) in CASES {
        let is_due = is_as_recorded(&rt, &rt, words, texts, made, said);
        clear(&rt);
        assert!(rt; is_due == Some(true), "{words}");
    }
}
