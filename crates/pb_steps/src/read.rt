//! The step that a line says.
ghost use Rattle.std.specs.Prelude.{◌≡◌, Ok, Err, IfOk, IfErr};
ghost use Rattle.pb_base.specs.Pieces.{chunk};
ghost use Rattle.pb_steps.specs.LineSteps.{IsFaultOf, rup_in, red_in, del_in, out_in, loaded_in, head_in, place_by, said_by, step_of};
ghost use Rattle.pb_steps.specs.StepGrammar.{begins_with_star};
ghost use Rattle.pb_steps.specs.Sayable.{IsSayable};
ghost use Rattle.pb_steps.specs.Steps.{IsSpelled};

use crate::constraint::{read_ids, read_right, read_sets, read_terms};
use crate::fault::StepFault;
use crate::past::{ends_here, take};
use crate::pol::read_ops;
use crate::quick::quick_step;
use crate::step::Step;
use crate::word::{count_in, id_in, token_fault};
use pb_base::{Expected, Word, Words, words};
use std::alloc::Global;

fn read_rup(alloc: Global, words: Words<'_>, end: u64) -> Result<Step, StepFault>
    ensures ok { IfOk result (λ step. rup_in end words.entry ≡ Ok step) }
    ensures err { IfErr result (IsFaultOf (rup_in end words.entry)) }
{
    let mut words = words;
    let terms = read_terms(alloc, &mut words, end)?;
    let right = read_right(&mut words, end)?;
    let ids = read_ids(alloc, words)?;
    Ok(Step::Rup { terms, right, ids })
}

fn read_red(alloc: Global, words: Words<'_>, end: u64) -> Result<Step, StepFault>
    ensures ok { IfOk result (λ step. red_in end words.entry ≡ Ok step) }
    ensures err { IfErr result (IsFaultOf (red_in end words.entry)) }
{
    let mut words = words;
    let terms = read_terms(alloc, &mut words, end)?;
    let right = read_right(&mut words, end)?;
    let sets = read_sets(alloc, words, end)?;
    Ok(Step::Red { terms, right, sets })
}

fn read_del(alloc: Global, words: Words<'_>, end: u64) -> Result<Step, StepFault>
    ensures ok { IfOk result (λ step. del_in end words.entry ≡ Ok step) }
    ensures err { IfErr result (IsFaultOf (del_in end words.entry)) }
{
    let ids = read_ids(alloc, words)?;
    if ids.len() == 0 {
        return Err(token_fault(end, Expected::Id));
    }
    Ok(Step::Del(ids))
}

fn read_out(words: Words<'_>, end: u64) -> Result<Step, StepFault>
    ensures { result ≡ out_in end words.entry }
{
    let mut words = words;
    let Some(word) = words.next() else {
        return Err(token_fault(end, Expected::Id));
    };
    let id = id_in(&word, Expected::Id)?;
    ends_here(&mut words, Step::Out { id })
}

fn read_loaded(words: Words<'_>, end: u64) -> Result<Step, StepFault>
    ensures { result ≡ loaded_in end words.entry }
{
    let mut words = words;
    let Some(word) = words.next() else {
        return Err(token_fault(end, Expected::LoadedCount));
    };
    let count = count_in(&word)?;
    ends_here(&mut words, Step::Loaded { count })
}

fn read_head(words: Words<'_>, end: u64) -> Result<Step, StepFault>
    ensures { result ≡ head_in end words.entry }
{
    let mut words = words;
    take(&mut words, end, b"derivation", Expected::Head)?;
    take(&mut words, end, b"profile", Expected::Head)?;
    take(&mut words, end, b"1", Expected::Head)?;
    ends_here(&mut words, Step::Head)
}

fn begins_with_star(text: &[u8]) -> bool
    ensures { result ≡ begins_with_star text.now }
{
    matches!(text, [b'*', ..])
}

// A line that is no rule: it begins with `*`, or has its own place.
fn read_place(word: &Word<'_>, words: Words<'_>, end: u64) -> Result<Step, StepFault>
    ensures { result ≡ place_by end (chunk word.now) words.entry }
{
    let mut words = words;
    let verb = word.text;
    if begins_with_star(verb) {
        return Ok(Step::Blank);
    }
    if verb == b"end".as_slice() {
        return ends_here(&mut words, Step::End);
    }
    if verb == b"f".as_slice() {
        return read_loaded(words, end);
    }
    if verb == b"pseudo-Boolean".as_slice() {
        return read_head(words, end);
    }
    Err(token_fault(word.column, Expected::StepWord))
}

// What a first word and those behind it say.
fn read_said(alloc: Global, word: &Word<'_>, words: Words<'_>, end: u64) -> Result<Step, StepFault>
    ensures ok { IfOk result (λ step. said_by end (chunk word.now) words.entry ≡ Ok step) }
    ensures err { IfErr result (IsFaultOf (said_by end (chunk word.now) words.entry)) }
{
    let verb = word.text;
    if verb == b"pol".as_slice() {
        return Ok(Step::Pol(read_ops(alloc, words)?));
    }
    if verb == b"rup".as_slice() {
        return read_rup(alloc, words, end);
    }
    if verb == b"red".as_slice() {
        return read_red(alloc, words, end);
    }
    if verb == b"del".as_slice() {
        return read_del(alloc, words, end);
    }
    if verb == b"out".as_slice() {
        return read_out(words, end);
    }
    read_place(word, words, end)
}

// The same of a whole line.
fn read_line(alloc: Global, line: &[u8]) -> Result<Step, StepFault>
    ensures ok { IfOk result (λ step. step_of line.now ≡ Ok step) }
    ensures err { IfErr result (IsFaultOf (step_of line.now)) }
{
    let mut words = words(line);
    match words.next() {
        None => Ok(Step::Blank),
        Some(word) => read_said(alloc, &word, words, line.len() as u64 + 1),
    }
}

// The same in one pass, where the line is in the usual layout.
fn read_either(alloc: Global, line: &[u8]) -> Result<Step, StepFault>
    ensures ok { IfOk result (λ step. step_of line.now ≡ Ok step) }
    ensures err { IfErr result (IsFaultOf (step_of line.now)) }
{
    if let Some(step) = quick_step(alloc, line)? {
        return Ok(step);
    }
    read_line(alloc, line)
}

/// Reads a line, without its LF, as a step, or tells its first fault.
///
/// Ids and counts are at most 2^63 - 1, variables at most 2^31 - 1, and the absolute values of
/// integers and factors below 2^126.
pub fn read_step(alloc: Global, line: &[u8]) -> Result<Step, StepFault>
    // The step is the one that the line's definition gives.
    ensures ok { IfOk result (λ step. step_of line.now ≡ Ok step) }
    // A line can say it: its numbers are within all limits.
    ensures sayable { IfOk result IsSayable }
    // It meets what rules require of a step.
    ensures spelled { IfOk result IsSpelled }
    // A fault is `NoMemory`, or the line's first with its column and what was expected there or which limit it passes.
    ensures fault { IfErr result (IsFaultOf (step_of line.now)) }
{
    read_either(alloc, line)
}
