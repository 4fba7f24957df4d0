//! What the literals of an objective cost, into the caller's memory.
ghost use Rattle.std.specs.Prelude.{◌≡◌, map, length, IfOk};
ghost use Rattle.pb_base.specs.Problems.{IsWithinLimits};
ghost use Rattle.pb_columns.specs.Words.{wide};
ghost use Rattle.pb_norm.specs.Reduction.{opposite};
ghost use Rattle.pbcnf_c.specs.Bounds.{TellRows};
ghost use Rattle.pbcnf_c.specs.Choices.{bound_of};
ghost use Rattle.pbcnf_c.specs.Put.{IsWanting};
ghost use Rattle.pbcnf_c.specs.Rooms.{Ends, Fills};
ghost use Rattle.pbcnf_c.specs.Softs.{no_costs, soft_row, AreSoftsOf, SoftsInto};

use crate::bounds::{PbcnfRow, row_of};
use crate::options::{PbcnfBound, bound_of};
use crate::room::fill;
use pb_base::Problem;
use pb_columns::halves;
use pb_encode::{objective_form, offset_by};
use pb_norm::Linear;
use pb_suite::{Outcome, problem_of_text};
use std::alloc::{AllocError, Global};

/// The offset of an objective, and the number of its soft literals.
#[repr(C)]
#[derive(Clone, Copy)]
pub struct PbcnfCosts {
    /// The offset in two's complement of 128 bits.
    pub offset_low: u64,
    pub offset_high: u64,
    /// The soft literals that are put, or for which there is no room.
    pub length: u64,
}

/// The end of a call that copies soft literals, and the costs that it reports.
#[derive(Drop)]
pub struct Costed {
    pub outcome: Outcome,
    pub costs: PbcnfCosts,
}

// Ends a call that copies no soft literals, and reports costs of 0.
fn uncosted(outcome: Outcome) -> Costed
    ensures outcome { result.outcome ≡ outcome }
    ensures costs { result.costs ≡ no_costs }
{
    Costed {
        outcome,
        costs: PbcnfCosts {
            offset_low: 0,
            offset_high: 0,
            length: 0,
        },
    }
}

// Ends a call by copying soft literals into the room, if they fit; offset and number are reported anyway.
fn with_costs(softs: &[PbcnfRow], offset: i128, room: &mut [PbcnfRow]) -> Costed
    ensures room { Fills softs.now room.old room.new result.outcome }
    ensures offset { wide result.costs.offset_low result.costs.offset_high ≡ offset }
    ensures count { result.costs.length ≡ length softs.now }
{
    let (offset_low, offset_high) = halves(offset);
    Costed {
        outcome: fill(softs, room),
        costs: PbcnfCosts {
            offset_low,
            offset_high,
            length: softs.len() as u64,
        },
    }
}

// Returns the soft literals of an objective in normal form: for each term that its literal is to be false.
fn softs_of(alloc: Global, objective: &Linear) -> Result<Vec<PbcnfRow>, AllocError>
    ensures { IfOk result (λ given. TellRows (map soft_row (map opposite objective.now.terms)) given.items) }
{
    let mut given = Vec::new(alloc);
    let terms = objective.terms();
    for term in terms {
        let lit = term.lit.not();
        given.push(row_of(&term.coef, &lit))?;
    }
    Ok(given)
}

// Copies the soft literals of a problem's objective into the room.
fn put_softs(alloc: Global, problem: &Problem, room: &mut [PbcnfRow]) -> Costed
    requires { IsWithinLimits problem.now }
    ensures { Ends (AreSoftsOf problem.now) IsWanting no_costs room.old room.new result.costs result.outcome }
{
    let Ok(objective) = objective_form(alloc, problem) else {
        return uncosted(Outcome::NoMemory);
    };
    match softs_of(alloc, &objective) {
        Ok(softs) => with_costs(softs.as_slice(), offset_by(&objective), room),
        Err(AllocError) => uncosted(Outcome::NoMemory),
    }
}

/// Copies the soft literals of the objective of an OPB text into the room.
pub fn softs_into(alloc: Global, opb: &[u8], bound: &PbcnfBound, room: &mut [PbcnfRow]) -> Costed
    ensures { SoftsInto (bound_of bound.now) opb.now room.old room.new result.costs result.outcome }
{
    match problem_of_text(alloc, opb, bound_of(bound)) {
        Ok(problem) => put_softs(alloc, &problem, room),
        Err(outcome) => uncosted(outcome),
    }
}
