//! The words of a refusal.
ghost use Rattle.std.specs.Prelude.{◌≡◌, IfOk, IsTrue, ◌↔◌, string_bytes};
ghost use Rattle.pbcnf_c.specs.WordsSaid.{call_words, SaysRefusal};
ghost use Rattle.pbcnf_c.specs.inner.Blames.{blame_in, may_blame, without_blame};

use crate::outcomes::outcome_of;
use crate::refusal::PbcnfRefusal;
use crate::said::{Said, silent, spoken};
use pb_suite::Outcome;
use std::alloc::Global;
use std::fmt;

// True if a refusal of this status can name a constraint to blame: bad numbers, or a limit of no text.
fn may_blame(refusal: &PbcnfRefusal) -> bool
    ensures { result ≡ may_blame refusal.now }
{
    refusal.status == 2 || (refusal.status == 3 && refusal.file == 0)
}

// Returns the number of the constraint to blame, from 1, and 0 if there is none.
fn blame_in(refusal: &PbcnfRefusal) -> u64
    ensures { result ≡ blame_in refusal.now }
{
    if may_blame(refusal) {
        refusal.number
    } else {
        0
    }
}

// Returns the refusal without the number of the constraint to blame.
fn without_blame(refusal: &PbcnfRefusal) -> PbcnfRefusal
    ensures { result ≡ without_blame refusal.now }
{
    let mut plain = *refusal;
    if may_blame(refusal) {
        plain.number = 0;
    }
    plain
}

// An outcome, and the number of the constraint to blame.
#[derive(Clone, Copy)]
struct Told {
    at: u64,
    outcome: Outcome,
}

// The beginning of a line of words: the number of the constraint to blame or, if it is 0, the word `all`.
#[derive(Clone, Copy)]
struct Culprit<'a> {
    at: u64,
    all: &'a str,
}

impl<'a> fmt::Display for Culprit<'a> {
    ghost use Rattle.std.specs.Prelude.{Some};
    ghost use Rattle.pbcnf_c.specs.WordsSaid.{blame_words};

    ghost output = { λ culprit. Some (blame_words culprit.at culprit.all.now) };

    // Writes `pbcnf: constraint 3: `, or `pbcnf: usage: ` and the like if no constraint is to blame.
    fn fmt<W: fmt::Write>(&self, f: &mut fmt::Formatter<W>) -> fmt::Result {
        if self.at == 0 {
            write!(f, "pbcnf: {}: ", self.all)
        } else {
            write!(f, "pbcnf: constraint {}: ", self.at)
        }
    }
}

impl fmt::Display for Told {
    ghost use Rattle.std.specs.Prelude.{Some};
    ghost use Rattle.pbcnf_c.specs.WordsSaid.{call_words};

    ghost output = { λ told. Some (call_words told.at told.outcome) };

    // Writes the words of an outcome as the program does, and those of a call's own outcomes: bad numbers, limits of no text, no room.
    fn fmt<W: fmt::Write>(&self, f: &mut fmt::Formatter<W>) -> fmt::Result {
        let at = self.at;
        match &self.outcome {
            Outcome::Usage => {
                write!(
                    f,
                    "{}a number is out of its range",
                    Culprit { at, all: "usage" }
                )
            }
            Outcome::Limit {
                file: None,
                which,
                ..
            } => write!(f, "{}limit {which}", Culprit { at, all: "totals" }),
            Outcome::WriteFault => f.write_str("pbcnf: the room is too small"),
            outcome => write!(f, "{outcome}"),
        }
    }
}

/// Copies the words of a refusal into the room, as the program prints them but where a call differs; none after a call that is done.
pub fn words_into(alloc: Global, refusal: &PbcnfRefusal, room: &mut [u8]) -> Said
    ensures { SaysRefusal refusal.now room.old room.new result.length result.outcome }
{
    let Some(outcome) = outcome_of(&without_blame(refusal)) else {
        return silent(Outcome::Usage);
    };
    let told = Told {
        at: blame_in(refusal),
        outcome,
    };
    match format!(in alloc; "{told}") {
        Ok(words) => spoken(words.as_bytes(), room),
        Err(_) => silent(Outcome::NoMemory),
    }
}
