//! Why a line was not taken.
use crate::denied::LratDenied;
use pb_base::{Expected, LimitKind, NoMemory};
use pb_steps::StepFault;
use thiserror::Error;

/// The first fault of a line, with the column of its word; why its clause may not be added; or want of memory.
#[derive(Clone, Copy, Debug, Error)]
pub enum LratFault {
    /// No line goes on so; this could have stood there.
    #[error("column {column}: expected {expected}")]
    Token { column: u64, expected: Expected },
    /// A limit is passed there.
    #[error("column {column}: limit {which}")]
    Limit { column: u64, which: LimitKind },
    /// The clause may not be added.
    #[error("{0}")]
    Denied(LratDenied),
    /// An allocation was refused.
    #[error("out of memory")]
    NoMemory,
}

impl From<StepFault> for LratFault {
    ghost use Rattle.std.specs.Prelude.{◌≡◌};
    ghost use Rattle.pb_lrat.specs.LratStates.{fault_of};

    ghost from_gives = { λ f e. e ≡ fault_of f };

    // Lets `?` report the fault of a line's words, at their columns.
    fn from(fault: StepFault) -> Self {
        match fault {
            StepFault::Token { column, expected } => LratFault::Token { column, expected },
            StepFault::Limit { column, which } => LratFault::Limit { column, which },
            StepFault::NoMemory => LratFault::NoMemory,
        }
    }
}

impl From<NoMemory> for LratFault {
    ghost use Rattle.std.specs.Prelude.{◌≡◌};
    ghost use Rattle.pb_lrat.specs.declared.fault.LratFault.TheVariants as fault;

    ghost from_gives = { λ _ e. e ≡ fault.NoMemory };

    // Lets `?` pass on that memory ran out.
    fn from(_: NoMemory) -> Self {
        LratFault::NoMemory
    }
}
