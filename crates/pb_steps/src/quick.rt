//! Lines of steps in the layout in which they are written, read in one pass: one blank before each word but the first, a sign before each coefficient, one variable set.
//!
//! `quick_step` reads the bytes once and makes no words. A list gets its room by the number of bytes that remain: to count their
//! blanks costs more than growing does. Numbers of `pol` are read whole, since nearly every such line ends in a division by 2^126 -
//! 1; elsewhere a number from about 2^60 on is left to the reader of words. So is a line with anything unusual, a fault too: it is
//! read again from its start, and faults and columns are made in one place.
//!
//! What is proved of a part of a line is that its bytes spell its symbols, whatever the words after it are (`Spells`). So parts
//! follow one another with no word on columns, and both readers agree by the law that a step's spelling is read as that step.
ghost use Rattle.std.specs.Prelude.{◌≡◌, ◌<◌, ◌^◌, ◌∷◌, [], codes, unsigned_abs, Ok, IfOk, IfSome};
ghost use Rattle.pb_steps.specs.LineSteps.{step_of};
ghost use Rattle.pb_steps.specs.Fronts.{IsShort};
ghost use Rattle.pb_steps.specs.Sayable.{IsVariable};
ghost use Rattle.pb_steps.specs.StepGrammar.{bit_word, set_symbols};
ghost use Rattle.pb_steps.specs.StepGrammar.StepSymbol.{integer, key};
ghost use Rattle.pb_steps.specs.inner.Front.{SaysBehind};

use crate::listed::{ids_at, items_at};
use crate::op::{PolOp, Set};
use crate::short::{ends_at, id_at, integer_at, mark_at, pair_at, variable_at};
use crate::step::{Sets, Step};
use pb_base::Term;
use std::alloc::{AllocError, Global};

// A `>=`, a right side and a `;`.
fn right_at(left: &[u8]) -> Option<(i128, usize)>
    ensures short { IfSome result (λ r. IsShort left.now (key (codes ">=") ∷ integer r.0 ∷ key (codes ";") ∷ []) r.1) }
    ensures small { IfSome result (λ r. unsigned_abs r.0 < 2 ^ 126) }
{
    if !pair_at(left, b'>', b'=') {
        return None;
    }
    let (right, count) = integer_at(&left[3..])?;
    if !mark_at(&left[3 + count..], b';') {
        return None;
    }
    Some((right, count + 5))
}

// The value of a variable.
fn bit_at(left: &[u8]) -> Option<bool>
    ensures { IfSome result (λ value. IsShort left.now (key (bit_word value) ∷ []) 2) }
{
    if mark_at(left, b'0') {
        return Some(false);
    }
    if mark_at(left, b'1') {
        return Some(true);
    }
    None
}

// A variable and its value.
fn set_at(left: &[u8]) -> Option<(Set, usize)>
    ensures short { IfSome result (λ r. IsShort left.now (set_symbols r.0) r.1) }
    ensures named { IfSome result (λ r. IsVariable r.0.var) }
{
    let (var, count) = variable_at(left)?;
    if !pair_at(&left[count..], b'-', b'>') {
        return None;
    }
    let value = bit_at(&left[count + 3..])?;
    Some((Set { var, value }, count + 5))
}

fn pol_behind(alloc: Global, left: &[u8]) -> Result<Option<Step>, AllocError>
    ensures { IfOk result (λ found. IfSome found (SaysBehind (codes "pol") left.now)) }
{
    let (ops, count) = items_at::<PolOp>(alloc, left)?;
    if count == left.len() {
        Ok(Some(Step::Pol(ops)))
    } else {
        Ok(None)
    }
}

fn rup_behind(alloc: Global, left: &[u8]) -> Result<Option<Step>, AllocError>
    ensures { IfOk result (λ found. IfSome found (SaysBehind (codes "rup") left.now)) }
{
    let (terms, first) = items_at::<Term>(alloc, left)?;
    let Some((right, second)) = right_at(&left[first..]) else {
        return Ok(None)
    };
    let (ids, third) = ids_at(alloc, &left[first + second..])?;
    if first + second + third == left.len() {
        Ok(Some(Step::Rup { terms, right, ids }))
    } else {
        Ok(None)
    }
}

// A list of one variable and its value.
fn one_set(alloc: Global, set: Set) -> Result<Sets, AllocError>
    ensures { IfOk result (λ sets. sets ≡ set ∷ []) }
{
    let mut sets = Sets::new(alloc);
    sets.push(set)?;
    Ok(sets)
}

fn red_behind(alloc: Global, left: &[u8]) -> Result<Option<Step>, AllocError>
    ensures { IfOk result (λ found. IfSome found (SaysBehind (codes "red") left.now)) }
{
    let (terms, first) = items_at::<Term>(alloc, left)?;
    let Some((right, second)) = right_at(&left[first..]) else {
        return Ok(None)
    };
    let Some((set, third)) = set_at(&left[first + second..]) else {
        return Ok(None)
    };
    if first + second + third < left.len() {
        return Ok(None);
    }
    let sets = one_set(alloc, set)?;
    Ok(Some(Step::Red { terms, right, sets }))
}

fn del_behind(alloc: Global, left: &[u8]) -> Result<Option<Step>, AllocError>
    ensures { IfOk result (λ found. IfSome found (SaysBehind (codes "del") left.now)) }
{
    let (ids, count) = ids_at(alloc, left)?;
    if count == left.len() && ids.len() > 0 {
        Ok(Some(Step::Del(ids)))
    } else {
        Ok(None)
    }
}

fn out_behind(left: &[u8]) -> Option<Step>
    ensures { IfSome result (SaysBehind (codes "out") left.now) }
{
    let (id, count) = id_at(left)?;
    if count == left.len() {
        Some(Step::Out { id })
    } else {
        None
    }
}

// What stands behind a verb.
fn step_behind(alloc: Global, verb: &[u8], left: &[u8]) -> Result<Option<Step>, AllocError>
    ensures { IfOk result (λ found. IfSome found (SaysBehind verb.now left.now)) }
{
    match verb {
        b"pol" => pol_behind(alloc, left),
        b"rup" => rup_behind(alloc, left),
        b"red" => red_behind(alloc, left),
        b"del" => del_behind(alloc, left),
        b"out" => Ok(out_behind(left)),
        _ => Ok(None),
    }
}

/// The step that a line says, where it is one of the rules in the usual layout.
pub(crate) fn quick_step(alloc: Global, line: &[u8]) -> Result<Option<Step>, AllocError>
    ensures { IfOk result (λ found. IfSome found (λ step. step_of line.now ≡ Ok step)) }
{
    if line.len() < 3 || !ends_at(line, 3) {
        return Ok(None);
    }
    let (verb, left) = line.split_at(3);
    step_behind(alloc, verb, left)
}
