//! The line of a step, as it is written.
ghost use Rattle.std.specs.Prelude.{◌≡◌, ◌++◌, ◌∷◌, [], OnOk, OnErr, codes, decimal, map};
ghost use Rattle.std.specs.List.{flat_map};
ghost use Rattle.pb_steps.specs.StepText.{with_blanks, step_line};
ghost use Rattle.pb_steps.specs.StepGrammar.{op_symbols, constraint_symbols, set_symbols};
ghost use Rattle.pb_steps.specs.StepGrammar.StepSymbol.{number};
ghost use Rattle.pb_steps.specs.inner.Appending.{KeepsFront};

use crate::listed::push_all;
use crate::op::{PolOp, Set};
use crate::step::Step;
use crate::write_word::{push_integer, push_number, push_text};
use pb_base::{NoMemory, Term};
use std::alloc::{AllocError, Global};

fn push_constraint(out: &mut Vec<u8>, terms: &[Term], right: i128) -> Result<(), AllocError>
    ensures ok { OnOk result (out.new.items ≡ out.old.items ++ with_blanks (constraint_symbols terms.now right [])) }
    ensures kept { OnErr result (KeepsFront out.old.items out.new.items) }
{
    push_all(out, terms)?;
    push_text(out, b" >=")?;
    push_integer(out, right)?;
    push_text(out, b" ;")
}

fn push_ids(out: &mut Vec<u8>, ids: &[u64]) -> Result<(), AllocError>
    ensures ok { OnOk result (out.new.items ≡ out.old.items ++ with_blanks (map number ids.now)) }
    ensures kept { OnErr result (KeepsFront out.old.items out.new.items) }
{
    push_all(out, ids)
}

fn push_rup(out: &mut Vec<u8>, terms: &[Term], right: i128, ids: &[u64]) -> Result<(), AllocError>
    ensures ok { OnOk result (out.new.items ≡ out.old.items ++ codes "rup" ++ with_blanks (constraint_symbols terms.now right (map number ids.now))) }
    ensures kept { OnErr result (KeepsFront out.old.items out.new.items) }
{
    out.extend_from_slice(b"rup")?;
    push_constraint(out, terms, right)?;
    push_ids(out, ids)
}

fn push_red(out: &mut Vec<u8>, terms: &[Term], right: i128, sets: &[Set]) -> Result<(), AllocError>
    ensures ok { OnOk result (out.new.items ≡ out.old.items ++ codes "red" ++ with_blanks (constraint_symbols terms.now right (flat_map set_symbols sets.now))) }
    ensures kept { OnErr result (KeepsFront out.old.items out.new.items) }
{
    out.extend_from_slice(b"red")?;
    push_constraint(out, terms, right)?;
    push_all(out, sets)
}

fn push_pol(out: &mut Vec<u8>, ops: &[PolOp]) -> Result<(), AllocError>
    ensures ok { OnOk result (out.new.items ≡ out.old.items ++ codes "pol" ++ with_blanks (flat_map op_symbols ops.now)) }
    ensures kept { OnErr result (KeepsFront out.old.items out.new.items) }
{
    out.extend_from_slice(b"pol")?;
    push_all(out, ops)
}

fn push_del(out: &mut Vec<u8>, ids: &[u64]) -> Result<(), AllocError>
    ensures ok { OnOk result (out.new.items ≡ out.old.items ++ codes "del" ++ with_blanks (map number ids.now)) }
    ensures kept { OnErr result (KeepsFront out.old.items out.new.items) }
{
    out.extend_from_slice(b"del")?;
    push_ids(out, ids)
}

// A word and a number.
fn push_one(out: &mut Vec<u8>, verb: &[u8], n: u64) -> Result<(), AllocError>
    ensures ok { OnOk result (out.new.items ≡ out.old.items ++ verb.now ++ 32 ∷ decimal n) }
    ensures kept { OnErr result (KeepsFront out.old.items out.new.items) }
{
    push_text(out, verb)?;
    push_number(out, n)
}

// Appends a step without the LF.
fn push_step(out: &mut Vec<u8>, step: &Step) -> Result<(), AllocError>
    ensures ok { OnOk result (out.new.items ≡ out.old.items ++ step_line step.now) }
    ensures kept { OnErr result (KeepsFront out.old.items out.new.items) }
{
    match step {
        Step::Blank => Ok(()),
        Step::Head => push_text(out, b"pseudo-Boolean derivation profile 1"),
        Step::Loaded { count } => push_one(out, b"f", *count),
        Step::Pol(ops) => push_pol(out, ops.as_slice()),
        Step::Rup { terms, right, ids } => {
            push_rup(out, terms.as_slice(), *right, ids.as_slice())
        }
        Step::Red { terms, right, sets } => {
            push_red(out, terms.as_slice(), *right, sets.as_slice())
        }
        Step::Del(ids) => push_del(out, ids.as_slice()),
        Step::Out { id } => push_one(out, b"out", *id),
        Step::End => push_text(out, b"end"),
    }
}

fn push_line(out: &mut Vec<u8>, step: &Step) -> Result<(), AllocError>
    ensures ok { OnOk result (out.new.items ≡ out.old.items ++ step_line step.now ++ codes "\n") }
    ensures kept { OnErr result (KeepsFront out.old.items out.new.items) }
{
    push_step(out, step)?;
    push_text(out, b"\n")
}

/// Appends the one line that says a step, with its LF. Where memory is wanting, the bytes stay as they were.
pub fn write_step(_alloc: Global, step: &Step, out: &mut Vec<u8>) -> Result<(), NoMemory>
    // The step's one canonical line and LF were appended.
    ensures ok { OnOk result (out.new.items ≡ out.old.items ++ step_line step.now ++ codes "\n") }
    // After `NoMemory` the bytes are as they were.
    ensures err { OnErr result (out.new.items ≡ out.old.items) }
{
    let before = out.len();
    match push_line(out, step) {
        Ok(()) => Ok(()),
        Err(_) => {
            out.truncate(before);
            Err(NoMemory)
        }
    }
}
