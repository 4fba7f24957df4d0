//! Decoding, and the names of variables, into the caller's memory.
ghost use Rattle.std.specs.Prelude.{◌≡◌, None, length};
ghost use Rattle.pb_base.specs.Problems.{IsWithinLimits};
ghost use Rattle.pbcnf_c.specs.Choices.{bound_of};
ghost use Rattle.pbcnf_c.specs.Decodings.{Concludes, DecodesInto, MapsInto, SaysAnswer, SaysNames};

use crate::options::{PbcnfBound, bound_of};
use crate::said::{Said, silent, spoken};
use pb_base::{NoMemory, Problem};
use pb_model::{Decoded, Model, decode, read_model, write_map, write_solution};
use pb_suite::{Outcome, model_refusal, problem_of_text};
use std::alloc::Global;

// Copies the text of a solution into the room.
fn put_solution(alloc: Global, problem: &Problem, model: &Model, room: &mut [u8]) -> Said
    requires within { IsWithinLimits problem.now }
    requires covers { length model.now.values ≡ problem.now.vars }
    ensures { SaysAnswer problem.now model.now room.old room.new result.length result.outcome }
{
    let mut text = Vec::new(alloc);
    match write_solution(alloc, problem, &model.values, &mut text) {
        Ok(()) => spoken(text.as_slice(), room),
        Err(NoMemory) => silent(Outcome::NoMemory),
    }
}

// Copies the solution that a model gives into the room, or answers why it gives none.
fn conclude(alloc: Global, problem: &Problem, model: &Model, room: &mut [u8]) -> Said
    requires within { IsWithinLimits problem.now }
    requires covers { length model.now.values ≡ problem.now.vars }
    ensures { Concludes problem.now model.now room.old room.new result.length result.outcome }
{
    match decode(problem, model) {
        Decoded::NoModel => silent(Outcome::NoModel),
        Decoded::Violates { statement } => silent(Outcome::NotASolution { statement }),
        Decoded::Solution => put_solution(alloc, problem, model, room),
    }
}

/// Copies the solution that a solver's text gives into the room.
pub fn decode_into(
    alloc: Global,
    opb: &[u8],
    bound: &PbcnfBound,
    answer: &[u8],
    room: &mut [u8],
) -> Said
    ensures { DecodesInto (bound_of bound.now) opb.now answer.now room.old room.new result.length result.outcome }
{
    let problem = match problem_of_text(alloc, opb, bound_of(bound)) {
        Ok(problem) => problem,
        Err(outcome) => return silent(outcome),
    };
    match read_model(alloc, answer, problem.vars) {
        Ok(model) => conclude(alloc, &problem, &model, room),
        Err(fault) => silent(model_refusal(fault)),
    }
}

// Copies the free names of a problem into the room.
fn put_names(alloc: Global, problem: &Problem, room: &mut [u8]) -> Said
    requires { IsWithinLimits problem.now }
    ensures { SaysNames problem.now room.old room.new result.length result.outcome }
{
    let mut text = Vec::new(alloc);
    match write_map(alloc, problem, &mut text) {
        Ok(()) => spoken(text.as_slice(), room),
        Err(NoMemory) => silent(Outcome::NoMemory),
    }
}

/// Copies the free names of an OPB text into the room.
pub fn map_into(alloc: Global, opb: &[u8], room: &mut [u8]) -> Said
    ensures { MapsInto opb.now room.old room.new result.length result.outcome }
{
    match problem_of_text(alloc, opb, None) {
        Ok(problem) => put_names(alloc, &problem, room),
        Err(outcome) => silent(outcome),
    }
}
