//! The rows of a table of bounds on the objective, into the caller's memory.
ghost use Rattle.std.specs.Prelude.{◌≡◌, IfOk};
ghost use Rattle.pb_encode.specs.Bounds.{bound_rows};
ghost use Rattle.pbcnf_c.specs.Bounds.{numbers_of, told_by, BoundsInto, TellRows};
ghost use Rattle.pbcnf_c.specs.Choices.{bound_of};
ghost use Rattle.pbcnf_c.specs.Put.{AreSizedRows, IsWanting};
ghost use Rattle.pbcnf_c.specs.Ready.{IsReady};
ghost use Rattle.pbcnf_c.specs.Rooms.{Ends};
ghost use Rattle.pbcnf_c.specs.Sizes.{no_size};

use crate::integers::integer_of;
use crate::options::{PbcnfBound, PbcnfOptions};
use crate::ready::{Ready, prepare};
use crate::size::{Ending, delivered, stopped};
use pb_base::{Lit, NoMemory};
use pb_columns::halves;
use pb_encode::bound_rows;
use pb_suite::Outcome;
use std::alloc::{AllocError, Global};

/// A value that the objective may be below, and the literal that is false exactly then.
#[repr(C)]
#[derive(Clone, Copy)]
pub struct PbcnfRow {
    /// The value in two's complement of 128 bits.
    pub low: u64,
    pub high: u64,
    /// The number of the literal's variable, negative where it is negated.
    pub literal: i32,
    /// 0.
    pub unused: i32,
}

/// Returns the row of a value and a literal, as the C header has it.
pub(crate) fn row_of(value: &i128, lit: &Lit) -> PbcnfRow
    ensures { told_by result ≡ numbers_of (value.now, lit.now) }
{
    let (low, high) = halves(*value);
    PbcnfRow {
        low,
        high,
        literal: integer_of(lit),
        unused: 0,
    }
}

// Returns values and literals as rows of the C header.
fn rows_of(alloc: Global, rows: &[(i128, Lit)]) -> Result<Vec<PbcnfRow>, AllocError>
    ensures { IfOk result (λ given. TellRows rows.now given.items) }
{
    let mut given = Vec::new(alloc);
    for row in rows {
        given.push(row_of(&row.0, &row.1))?;
    }
    Ok(given)
}

// Returns the rows of a problem's table, which is built anew; none if no table is requested.
fn rows_in(alloc: Global, ready: &Ready) -> Result<Vec<PbcnfRow>, NoMemory>
    requires { IsReady ready.now }
    ensures { IfOk result (λ rows. TellRows (bound_rows ready.now.options ready.now.problem) rows.items) }
{
    let rows = bound_rows(alloc, &ready.problem, &ready.options, &ready.summary)?;
    Ok(rows_of(alloc, rows.as_slice())?)
}

// Copies the rows of a problem's table into the room.
fn put_rows(alloc: Global, ready: &Ready, rows: &mut [PbcnfRow]) -> Ending
    requires { IsReady ready.now }
    ensures { Ends (AreSizedRows ready.now) IsWanting no_size rows.old rows.new result.size result.outcome }
{
    match rows_in(alloc, ready) {
        Ok(made) => delivered(made.as_slice(), &ready.summary, rows),
        Err(NoMemory) => stopped(Outcome::NoMemory),
    }
}

/// Copies the rows of the table of bounds on the objective of an OPB text into the room.
pub fn bounds_into(
    alloc: Global,
    opb: &[u8],
    chosen: &PbcnfOptions,
    bound: &PbcnfBound,
    rows: &mut [PbcnfRow],
) -> Ending
    ensures { BoundsInto chosen.now (bound_of bound.now) opb.now rows.old rows.new result.size result.outcome }
{
    match prepare(alloc, opb, chosen, bound) {
        Ok(ready) => put_rows(alloc, &ready, rows),
        Err(outcome) => stopped(outcome),
    }
}
