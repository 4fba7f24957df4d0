//! The reader of OPB texts.
ghost use Rattle.std.specs.Prelude.{◌≡◌, ◌≤◌, ◌-◌, IfOk, IfErr, length, take};
ghost use Rattle.pb_base.specs.Places.{end_of};
ghost use Rattle.pb_base.specs.Problems.{IsWithinLimits};
ghost use Rattle.pb_opb.specs.FirstLine.{told_vars};
ghost use Rattle.pb_opb.specs.Limits.{Keeps};
ghost use Rattle.pb_opb.specs.Faults.{Reads, IsAdmitted, IsFirstFault, Spells};
ghost use Rattle.pb_opb.specs.reader.Takes.{IsTokenFault};

use crate::fault::OpbFault;
use crate::first_line::told_vars;
use crate::gap::past_gap;
use crate::reader::Reader;
use pb_base::{LimitKind, MAX_TEXT, Place, Problem, end_of};
use pb_named::{NamedProblem, NumberFault, number};
use std::alloc::Global;

/// Reads an OPB text, or answers its first fault.
///
/// The text is within the limits: at most 2^32 bytes, 2^24 statements, 2^20 literals in one sum and variables up to 2^31 - 1, and the
/// absolute values of a statement's numbers, or of the objective's, add up to less than 2^100. As many variables are named by numbers
/// as the first line declares, or as many as the greatest index if that is more. After them come those of free names of at most 255
/// bytes, in the order in which the text first has them.
///
/// ```text
/// +1 rain +1 x3 >= 1 ;     4 variables, of which `rain` is variable 4; one statement
/// +1 x1 +1 x2 >= ;         Token { place: 1:16, expected: an integer }
/// ```
pub fn read_opb(alloc: Global, text: &[u8]) -> Result<Problem, OpbFault>
    // The problem is the one that the text says, and no limit is passed.
    ensures reads { IfOk result (Reads text.now) }
    // The problem is within what the crates above require.
    ensures within { IfOk result IsWithinLimits }
    // A fault is `NoMemory` or the text's first: its length; the number in the first line; the first token with which no accepted text
    // begins, or with which a limit is passed; else too many variables. It says what could come there.
    ensures fault { IfErr result (IsFirstFault text.now) }
{
    if text.len() as u64 > MAX_TEXT {
        return Err(OpbFault::Limit {
            place: None,
            which: LimitKind::Text,
        });
    }
    match told_vars(text) {
        Ok(told) => read_within(alloc, text, told),
        Err(place) => Err(OpbFault::Limit {
            place: Some(place),
            which: LimitKind::Variables,
        }),
    }
}

// Reads a text whose first line declares a number of variables, or 0.
fn read_within(alloc: Global, text: &[u8], told: u32) -> Result<Problem, OpbFault>
    requires admitted { IsAdmitted text.now }
    requires told { told ≡ told_vars text.now }
    ensures reads { IfOk result (Reads text.now) }
    ensures within { IfOk result IsWithinLimits }
    ensures fault { IfErr result (IsFirstFault text.now) }
{
    let named = match read_tokens(alloc, text) {
        Ok(named) => named,
        Err(fault) => return Err(fault),
    };
    match number(alloc, told, named) {
        Ok(problem) => Ok(problem),
        Err(NumberFault::Variables) => Err(OpbFault::Limit {
            place: Some(end_of(text)),
            which: LimitKind::Variables,
        }),
        Err(NumberFault::NoMemory) => Err(OpbFault::NoMemory),
    }
}

// Returns the place at which the unread text begins. Lines and columns are counted for a fault alone.
fn place_of(text: &[u8], left: &[u8]) -> Place
    requires { length left.now ≤ length text.now }
    ensures { result ≡ end_of (take (length text.now - length left.now) text.now) }
{
    end_of(&text[..text.len() - left.len()])
}

// Reads the tokens of a text, with their gaps.
fn read_tokens(alloc: Global, text: &[u8]) -> Result<NamedProblem<'_>, OpbFault>
    requires { IsAdmitted text.now }
    ensures spells { IfOk result (Spells text.now) }
    ensures keeps { IfOk result (λ p. (which : LimitKind) → Keeps which p) }
    ensures fault { IfErr result (IsTokenFault text.now) }
{
    let mut reader = Reader::new(alloc);
    let mut left = past_gap(text);
    while !left.is_empty() {
        left = match reader.take(alloc, left) {
            Ok(rest) => past_gap(rest),
            Err(refusal) => return Err(refusal.at(place_of(text, left))),
        };
    }
    match reader.finish() {
        Ok(problem) => Ok(problem),
        Err(refusal) => Err(refusal.at(end_of(text))),
    }
}
