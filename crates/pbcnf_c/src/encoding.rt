//! Encoding into the caller's memory.
ghost use Rattle.std.specs.Prelude.{◌≡◌, IfOk, flat_map};
ghost use Rattle.pb_dimacs.specs.CnfReading.{clause_numbers};
ghost use Rattle.pb_dimacs.specs.CnfText.{header_text};
ghost use Rattle.pb_encode.specs.Clauses.{problem_clauses};
ghost use Rattle.pb_encode.specs.Encodings.{derivation_text, problem_text};
ghost use Rattle.pbcnf_c.specs.Choices.{bound_of};
ghost use Rattle.pbcnf_c.specs.Exports.{DerivesInto, EncodesInto, HandsInto};
ghost use Rattle.pbcnf_c.specs.Put.{PutsOf};
ghost use Rattle.pbcnf_c.specs.Ready.{IsReady};

use crate::integers::IntegerSink;
use crate::line_sink::LineSink;
use crate::options::{PbcnfBound, PbcnfOptions};
use crate::ready::{Ready, prepare};
use crate::size::{Ending, delivered, stopped};
use itoa::Buffer;
use pb_encode::{Summary, count_loaded, hand_clauses, stream_steps};
use pb_family::StepTextSink;
use pb_suite::Outcome;
use std::alloc::{AllocError, Global};

// Returns the p line of a CNF.
fn header(alloc: Global, summary: &Summary) -> Result<Vec<u8>, AllocError>
    ensures { IfOk result (λ v. v.items ≡ header_text summary.now.vars summary.now.clauses) }
{
    let mut line = Vec::new(alloc);
    line.extend_from_slice(b"p cnf ")?;
    line.extend_from_slice(Buffer::new().format(summary.vars).as_bytes())?;
    line.push(b' ')?;
    line.extend_from_slice(Buffer::new().format(summary.clauses).as_bytes())?;
    line.push(b'\n')?;
    Ok(line)
}

// Copies the CNF text of a problem into the room.
fn put_cnf(alloc: Global, ready: &Ready, cnf: &mut [u8]) -> Ending
    requires { IsReady ready.now }
    ensures { PutsOf (problem_text ready.now.options ready.now.problem) ready.now cnf.old cnf.new result.size result.outcome }
{
    let Ok(head) = header(alloc, &ready.summary) else {
        return stopped(Outcome::NoMemory);
    };
    let mut sink = LineSink::new(b"", head);
    match hand_clauses(alloc, &ready.problem, &ready.options, &mut sink) {
        Ok(()) => delivered(sink.into_text().as_slice(), &ready.summary, cnf),
        Err(_) => stopped(Outcome::NoMemory),
    }
}

/// Copies the integers of the clauses of a problem into the room.
pub fn put_integers(alloc: Global, ready: &Ready, integers: &mut [i32]) -> Ending
    requires { IsReady ready.now }
    ensures { PutsOf (flat_map clause_numbers (problem_clauses ready.now.options ready.now.problem)) ready.now integers.old integers.new result.size result.outcome }
{
    let mut sink = IntegerSink::new(alloc);
    match hand_clauses(alloc, &ready.problem, &ready.options, &mut sink) {
        Ok(()) => delivered(sink.integers(), &ready.summary, integers),
        Err(_) => stopped(Outcome::NoMemory),
    }
}

/// Copies the text of the derivation of a problem's clauses into the room.
pub fn put_steps(alloc: Global, ready: &Ready, proof: &mut [u8]) -> Ending
    requires { IsReady ready.now }
    ensures { PutsOf (derivation_text ready.now.options ready.now.problem) ready.now proof.old proof.new result.size result.outcome }
{
    let mut sink = StepTextSink::new(alloc, count_loaded(&ready.problem) + 1);
    match stream_steps(alloc, &ready.problem, &ready.options, &mut sink) {
        Ok(()) => delivered(sink.text(), &ready.summary, proof),
        Err(_) => stopped(Outcome::NoMemory),
    }
}

/// Copies the CNF text of an OPB text into the room.
pub fn encode_into(
    alloc: Global,
    opb: &[u8],
    chosen: &PbcnfOptions,
    bound: &PbcnfBound,
    cnf: &mut [u8],
) -> Ending
    ensures { EncodesInto chosen.now (bound_of bound.now) opb.now cnf.old cnf.new result.size result.outcome }
{
    match prepare(alloc, opb, chosen, bound) {
        Ok(ready) => put_cnf(alloc, &ready, cnf),
        Err(outcome) => stopped(outcome),
    }
}

/// Copies the integers of the clauses of an OPB text into the room.
pub fn clauses_into(
    alloc: Global,
    opb: &[u8],
    chosen: &PbcnfOptions,
    bound: &PbcnfBound,
    integers: &mut [i32],
) -> Ending
    ensures { HandsInto chosen.now (bound_of bound.now) opb.now integers.old integers.new result.size result.outcome }
{
    match prepare(alloc, opb, chosen, bound) {
        Ok(ready) => put_integers(alloc, &ready, integers),
        Err(outcome) => stopped(outcome),
    }
}

/// Copies the derivation of the clauses of an OPB text into the room.
pub fn derive_into(
    alloc: Global,
    opb: &[u8],
    chosen: &PbcnfOptions,
    bound: &PbcnfBound,
    proof: &mut [u8],
) -> Ending
    ensures { DerivesInto chosen.now (bound_of bound.now) opb.now proof.old proof.new result.size result.outcome }
{
    match prepare(alloc, opb, chosen, bound) {
        Ok(ready) => put_steps(alloc, &ready, proof),
        Err(outcome) => stopped(outcome),
    }
}
