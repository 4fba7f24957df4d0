//! Why a text is no refutation.
ghost use Rattle.std.specs.Prelude.{◌≡◌};
ghost use Rattle.pb_lrat.specs.Refuting.{of_line, of_lrat};

use crate::denied::LratDenied;
use crate::fault::LratFault;
use pb_base::{Expected, LimitKind, NoMemory, Place};
use pb_desk::LineFault;
use pb_dimacs::limit_place;
use thiserror::Error;

/// The first fault of a text, with its place; the line at which it is no refutation; or what kept it from being read.
#[derive(Clone, Copy, Debug, Error)]
pub enum RefuteFault {
    /// No line goes on so; this could have stood there.
    #[error("{place}: expected {expected}")]
    Token {
        place: Place,
        expected: Expected,
    },
    /// A limit is passed there, or by the length of the whole text.
    #[error("limit {which}")]
    Limit {
        place: Option<Place>,
        which: LimitKind,
    },
    /// The clause of a line may not be added, or the text ends before that line without an empty clause.
    #[error("line {line}: {why}")]
    NotRefuted {
        line: u64,
        why: LratDenied,
    },
    /// A read failed, and the desk counted that.
    #[error("a read failed")]
    Failed,
    /// An allocation was refused.
    #[error("out of memory")]
    NoMemory,
}

impl From<NoMemory> for RefuteFault {
    ghost use Rattle.std.specs.Prelude.{◌≡◌};
    ghost use Rattle.pb_lrat.specs.declared.refute_fault.RefuteFault.TheVariants as fault;

    ghost from_gives = { λ _ e. e ≡ fault.NoMemory };

    // Lets `?` pass on that memory ran out.
    fn from(_: NoMemory) -> Self {
        RefuteFault::NoMemory
    }
}

/// Returns the fault of the line of this number, from 1.
pub(crate) fn of_lrat(number: u64, fault: LratFault) -> RefuteFault
    ensures { result ≡ of_lrat number fault }
{
    match fault {
        LratFault::Token { column, expected } => RefuteFault::Token {
            place: Place {
                line: number,
                column,
            },
            expected,
        },
        LratFault::Limit { column, which } => RefuteFault::Limit {
            place: Some(Place {
                line: number,
                column,
            }),
            which,
        },
        LratFault::Denied(why) => RefuteFault::NotRefuted { line: number, why },
        LratFault::NoMemory => RefuteFault::NoMemory,
    }
}

/// Returns the fault of a line that was not read.
pub(crate) fn of_line(fault: LineFault) -> RefuteFault
    ensures { result ≡ of_line fault }
{
    match fault {
        LineFault::Failed => RefuteFault::Failed,
        LineFault::NoMemory => RefuteFault::NoMemory,
        LineFault::Limit { which, line } => RefuteFault::Limit {
            place: limit_place(which, Place { line, column: 1 }),
            which,
        },
    }
}
