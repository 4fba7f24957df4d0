//! Constraints in columns.
ghost use Rattle.std.specs.Prelude.{◌≡◌, IfErr, IfOk};
ghost use Rattle.pb_columns.specs.Columns.{columns_at};
ghost use Rattle.pbcnf_c.specs.Constraints.{ConstrainsInto, ConstraintsDeriveInto, IsReadyOf, StopsConstraints};
ghost use Rattle.pbcnf_c.specs.inner.Blames.{blame_of};
ghost use Rattle.pbcnf_c.specs.Ready.{IsReady};

use crate::encoding::{put_integers, put_steps};
use crate::options::{PbcnfOptions, options_of};
use crate::ready::{Ready, size_up};
use crate::size::{Ending, stopped};
use pb_columns::{ColumnFault, Columns, problem_of, statements_of};
use pb_suite::Outcome;
use std::alloc::Global;

/// Why constraints are not encoded, and which is to blame, from 1: at 0 no single one.
#[derive(Clone, Copy)]
pub struct Blame {
    pub outcome: Outcome,
    pub at: u64,
}

/// The end of a call over constraints, and the number of the one to blame, from 1; 0 if no single one is.
#[derive(Drop)]
pub struct BlamedEnding {
    pub ending: Ending,
    pub at: u64,
}

// Returns the outcome of a fault of columns, and the constraint to blame.
fn blame_of(fault: ColumnFault) -> Blame
    ensures { result ≡ blame_of fault }
{
    match fault {
        ColumnFault::NoMemory => Blame {
            outcome: Outcome::NoMemory,
            at: 0,
        },
        ColumnFault::Unfit { at } => Blame {
            outcome: Outcome::Usage,
            at,
        },
        ColumnFault::Limit { which, at } => Blame {
            outcome: Outcome::Limit {
                file: None,
                which,
                place: None,
            },
            at,
        },
    }
}

// Sizes up the encoding of constraints.
fn prepare_all(alloc: Global, columns: &Columns<'_>, chosen: &PbcnfOptions) -> Result<Ready, Blame>
    ensures ready { IfOk result IsReady }
    ensures of { IfOk result (IsReadyOf chosen.now (columns_at columns.now.words.now columns.now.literals.now columns.now.sums.now columns.now.first)) }
    ensures stopped { IfErr result (λ b. StopsConstraints chosen.now (columns_at columns.now.words.now columns.now.literals.now columns.now.sums.now columns.now.first) b.at b.outcome) }
{
    let Some(options) = options_of(chosen) else {
        return Err(Blame {
            outcome: Outcome::Usage,
            at: 0,
        });
    };
    let statements = match statements_of(alloc, columns) {
        Ok(statements) => statements,
        Err(fault) => return Err(blame_of(fault)),
    };
    match size_up(alloc, problem_of(alloc, columns.first, statements), options) {
        Ok(ready) => Ok(ready),
        Err(outcome) => Err(Blame { outcome, at: 0 }),
    }
}

/// Copies the integers of the clauses of constraints into the room.
pub fn constrain_into(
    alloc: Global,
    columns: &Columns<'_>,
    chosen: &PbcnfOptions,
    integers: &mut [i32],
) -> BlamedEnding
    ensures { ConstrainsInto chosen.now (columns_at columns.now.words.now columns.now.literals.now columns.now.sums.now columns.now.first) integers.old integers.new result.ending.size result.at result.ending.outcome }
{
    match prepare_all(alloc, columns, chosen) {
        Ok(ready) => BlamedEnding {
            ending: put_integers(alloc, &ready, integers),
            at: 0,
        },
        Err(blame) => BlamedEnding {
            ending: stopped(blame.outcome),
            at: blame.at,
        },
    }
}

/// Copies the derivation of the clauses of constraints into the room.
pub fn derive_all_into(
    alloc: Global,
    columns: &Columns<'_>,
    chosen: &PbcnfOptions,
    proof: &mut [u8],
) -> BlamedEnding
    ensures { ConstraintsDeriveInto chosen.now (columns_at columns.now.words.now columns.now.literals.now columns.now.sums.now columns.now.first) proof.old proof.new result.ending.size result.at result.ending.outcome }
{
    match prepare_all(alloc, columns, chosen) {
        Ok(ready) => BlamedEnding {
            ending: put_steps(alloc, &ready, proof),
            at: 0,
        },
        Err(blame) => BlamedEnding {
            ending: stopped(blame.outcome),
            at: blame.at,
        },
    }
}
