//! Lines in the layout in which they are mostly written: one blank before each word but the first, and no other. They are read in one pass.
//!
//! A line is an id, literals to a 0, and hints to a 0 that ends the line; or `d` and ids. Integers and the proof of a part of a line
//! are those of `pb_steps`. A comment, a blank line and any fault are left to the reader of words, which finds the fault's column.
ghost use Rattle.std.specs.Prelude.{◌≡◌, ◌≤◌, ◌<◌, ◌^◌, ◌∷◌, [], length, map, codes, Ok, IfOk, IfSome};
ghost use Rattle.std.specs.List.{AllByRecursion};
ghost use Rattle.pb_base.specs.Words.{words_of};
ghost use Rattle.pb_dimacs.specs.CnfReading.{literal_number, IsLitWithin};
ghost use Rattle.pb_steps.specs.Fronts.{IsNumberAt, IsShort, Spells};
ghost use Rattle.pb_steps.specs.Sayable.{IsId};
ghost use Rattle.pb_steps.specs.StepGrammar.{SpellAll, texts};
ghost use Rattle.pb_steps.specs.StepGrammar.StepSymbol.{integer, key};
ghost use Rattle.pb_lrat.specs.LratGrammar.{id_symbols};
ghost use Rattle.pb_lrat.specs.LratLines.{said_of};
ghost use Rattle.pb_lrat.specs.inner.Quick.{TellsBehind};

use crate::said::Said;
use pb_base::{Clause, Ids, Lit, Var};
use pb_steps::{ids_at, mark_at, number_at};
use std::alloc::{AllocError, Global};

// For how many literals room is made at once.
const MOST: usize = 1 << 12;

// Reads a number from 1 to `most` by the digits at the front, and returns how many these are.
fn number_to(most: u64, bytes: &[u8]) -> Option<(u64, usize)>
    ensures number { IfSome result (λ r. IsNumberAt bytes.now r.0 r.1) }
    ensures low { IfSome result (λ r. 1 ≤ r.0) }
    ensures high { IfSome result (λ r. r.0 ≤ most) }
{
    let (number, count) = number_at(bytes)?;
    if number == 0 || number > most {
        return None;
    }
    Some((number, count))
}

// Reads one of the first `vars` variables.
fn var_at(vars: u32, word: &[u8]) -> Option<(Var, usize)>
    requires { vars < 2 ^ 31 }
    ensures number { IfSome result (λ r. IsNumberAt word.now r.0 r.1) }
    ensures low { IfSome result (λ r. 1 ≤ r.0) }
    ensures high { IfSome result (λ r. r.0 ≤ vars) }
{
    let (number, count) = number_to(u64::from(vars), word)?;
    Some((Var::new(number as u32), count))
}

// Reads a negated literal after a blank, and returns how many bytes both take.
fn negated_at(vars: u32, left: &[u8]) -> Option<(Lit, usize)>
    requires { vars < 2 ^ 31 }
    ensures short { IfSome result (λ r. IsShort left.now (integer (literal_number r.0) ∷ []) r.1) }
    ensures within { IfSome result (λ r. IsLitWithin vars r.0) }
{
    let [b' ', b'-', word @ ..] = left else {
        return None
    };
    let (var, count) = var_at(vars, word)?;
    let positive = false;
    Some((Lit { var, positive }, count + 2))
}

// Reads a literal after a blank, and returns how many bytes both take.
fn literal_at(vars: u32, left: &[u8]) -> Option<(Lit, usize)>
    requires { vars < 2 ^ 31 }
    ensures short { IfSome result (λ r. IsShort left.now (integer (literal_number r.0) ∷ []) r.1) }
    ensures within { IfSome result (λ r. IsLitWithin vars r.0) }
{
    if let [_, b'-', ..] = left {
        return negated_at(vars, left);
    }
    let [b' ', word @ ..] = left else { return None };
    let (var, count) = var_at(vars, word)?;
    let positive = true;
    Some((Lit { var, positive }, count + 1))
}

// Guesses how many literals to make room for before a clause is read: an eighth of the bytes. A word with its blank has four bytes or
// more, and half of the words are hints.
fn room_in(left: &[u8]) -> usize {
    (left.len() / 8).min(MOST)
}

// Reads the literals at the front, and returns how many bytes they take.
fn lits_at(alloc: Global, vars: u32, left: &[u8]) -> Result<(Clause, usize), AllocError>
    requires { vars < 2 ^ 31 }
    ensures within { IfOk result (λ r. r.1 ≤ length left.now) }
    ensures spells { IfOk result (λ r. Spells left.now (map integer (map literal_number r.0)) r.1) }
    ensures each { IfOk result (λ r. AllByRecursion (IsLitWithin vars) r.0) }
{
    let mut lits = Vec::with_capacity(alloc, room_in(left))?;
    let mut at = 0usize;
    'lits: while let Some((lit, count)) = literal_at(vars, &left[at..]) {
        lits.push(lit)?;
        at += count;
    }
    Ok((Clause::from_vec(lits), at))
}

// Reads the ids up to a 0 with which the line ends.
fn ids_behind(alloc: Global, left: &[u8]) -> Result<Option<Ids>, AllocError>
    ensures spelled { IfOk result (λ found. IfSome found (λ ids. SpellAll (texts (words_of left.now)) (id_symbols ids))) }
    ensures each { IfOk result (λ found. IfSome found (AllByRecursion IsId)) }
{
    let (ids, count) = ids_at(alloc, left)?;
    if mark_at(&left[count..], b'0') && count + 2 == left.len() {
        Ok(Some(ids))
    } else {
        Ok(None)
    }
}

// Reads a clause and its hints.
fn addition_behind(
    alloc: Global,
    vars: u32,
    id: u64,
    left: &[u8],
) -> Result<Option<Said>, AllocError>
    requires vars { vars < 2 ^ 31 }
    requires id { IsId id }
    ensures { IfOk result (λ found. IfSome found (TellsBehind vars id left.now)) }
{
    let (clause, count) = lits_at(alloc, vars, left)?;
    if !mark_at(&left[count..], b'0') {
        return Ok(None);
    }
    let Some(hints) = ids_behind(alloc, &left[count + 2..])? else {
        return Ok(None)
    };
    Ok(Some(Said::Adds { id, clause, hints }))
}

// Reads the ids of clauses that are deleted, after their mark.
fn deletion_behind(
    alloc: Global,
    vars: u32,
    id: u64,
    left: &[u8],
) -> Result<Option<Said>, AllocError>
    requires mark { IsShort left.now (key (codes "d") ∷ []) 2 }
    requires id { IsId id }
    ensures { IfOk result (λ found. IfSome found (TellsBehind vars id left.now)) }
{
    let Some(ids) = ids_behind(alloc, &left[2..])? else {
        return Ok(None)
    };
    Ok(Some(Said::Deletes(ids)))
}

/// Reads a line in the usual layout, in one pass; `None` if it is in another, which is read by its words.
pub(crate) fn quick_line(alloc: Global, vars: u32, line: &[u8]) -> Result<Option<Said>, AllocError>
    requires { vars < 2 ^ 31 }
    ensures { IfOk result (λ found. IfSome found (λ said. said_of vars line.now ≡ Ok said)) }
{
    let Some((id, count)) = number_to((1 << 63) - 1, line) else {
        return Ok(None)
    };
    let left = &line[count..];
    if mark_at(left, b'd') {
        deletion_behind(alloc, vars, id, left)
    } else {
        addition_behind(alloc, vars, id, left)
    }
}
