//! Checking and refuting by texts, as the commands do by files.
ghost use Rattle.std.specs.Prelude.{◌≡◌};
ghost use Rattle.pb_desk.specs.Memory.{shelf_of};
ghost use Rattle.pb_words.specs.CheckWords.{as_check_words};
ghost use Rattle.pb_words.specs.RefuteWords.{as_refute_words};
ghost use Rattle.pb_suite.specs.CheckSpec.{check_spec};
ghost use Rattle.pb_suite.specs.Headline.{HasNoSolution};
ghost use Rattle.pb_suite.specs.InMemory.{AnswersInMemory};
ghost use Rattle.pb_suite.specs.RefuteSpec.{refute_spec};
ghost use Rattle.pbcnf_c.specs.Checks.{Checks, Refutes};

use crate::shelves::{CNF, LRAT, OPB, PROOF, checked_texts, refuted_texts};
use pb_base::{Ids, NoMemory};
use pb_desk::{MemoryDesk, Shelf};
use pb_suite::{Outcome, check_file, refute_file};
use pb_words::{CheckArgs, RefuteArgs};
use std::alloc::Global;

// The most bytes that a read gives.
const PIECE: usize = 65536;

// Room for what the commands say, which nobody reads.
const SAID: usize = 16;

// The names that the texts of a check have on a shelf.
const NAMES: CheckArgs<'static> = CheckArgs {
    opb: OPB,
    cnf: CNF,
    proof: PROOF,
    bound: None,
};

// Checks files of a shelf.
fn check_shelf(alloc: Global, shelf: Shelf, asked: &CheckArgs<'_>) -> Outcome
    ensures { AnswersInMemory (check_spec (as_check_words asked.now)) (shelf_of shelf) 16 result }
{
    match MemoryDesk::new(alloc, shelf, Ids::new(alloc), PIECE, SAID) {
        Ok(mut desk) => check_file(alloc, asked, &mut desk),
        Err(NoMemory) => Outcome::NoMemory,
    }
}

// Refutes by files of a shelf.
fn refute_shelf(alloc: Global, shelf: Shelf, asked: &RefuteArgs<'_>) -> Outcome
    ensures answers { AnswersInMemory (refute_spec (as_refute_words asked.now)) (shelf_of shelf) 16 result }
    ensures refutes { result ≡ Outcome.Done → HasNoSolution (as_refute_words asked.now) (shelf_of shelf) }
{
    match MemoryDesk::new(alloc, shelf, Ids::new(alloc), PIECE, SAID) {
        Ok(mut desk) => refute_file(alloc, asked, &mut desk),
        Err(NoMemory) => Outcome::NoMemory,
    }
}

/// Says whether a derivation shows that each solution of a problem extends to a model of a CNF.
pub fn check_texts(
    alloc: Global,
    opb: &[u8],
    bound: Option<i128>,
    cnf: &[u8],
    proof: &[u8],
) -> Outcome
    ensures { Checks bound opb.now cnf.now proof.now result }
{
    let asked = CheckArgs { bound, ..NAMES };
    match checked_texts(alloc, opb, cnf, proof) {
        Ok(shelf) => check_shelf(alloc, shelf, &asked),
        Err(NoMemory) => Outcome::NoMemory,
    }
}

/// Says whether a problem is refuted: its derivation is accepted, and the refutation shows that the CNF has no model.
pub fn refute_texts(
    alloc: Global,
    opb: &[u8],
    bound: Option<i128>,
    cnf: &[u8],
    proof: &[u8],
    lrat: &[u8],
) -> Outcome
    ensures { Refutes bound opb.now cnf.now proof.now lrat.now result }
{
    let checking = CheckArgs { bound, ..NAMES };
    let asked = RefuteArgs {
        checking,
        lrat: LRAT,
    };
    match refuted_texts(alloc, opb, cnf, proof, lrat) {
        Ok(shelf) => refute_shelf(alloc, shelf, &asked),
        Err(NoMemory) => Outcome::NoMemory,
    }
}
