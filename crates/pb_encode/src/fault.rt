//! Why a problem is not encoded.
ghost use Rattle.std.specs.Prelude.{◌≡◌};
ghost use Rattle.pb_encode.specs.declared.fault.MeasureFault.TheVariants as measure;
ghost use Rattle.pb_encode.specs.declared.fault.EncodeFault.TheVariants as encode;
ghost use Rattle.pb_encode.specs.inner.Faults.{as_encode_fault, of_sink};

use pb_base::{Failed, LimitKind, NoMemory};
use pb_family::SinkFault;
use std::alloc::AllocError;
use thiserror::Error;

/// The reason why a problem is not measured.
#[derive(Clone, Copy, Debug, Error)]
pub enum MeasureFault {
    /// The table of bounds would have more fresh variables than the budget, or there would be too many variables or clauses.
    #[error("limit {which}")]
    Limit { which: LimitKind },
    /// An allocation was refused.
    #[error("out of memory")]
    NoMemory,
}

impl From<NoMemory> for MeasureFault {
    ghost from_gives = { λ _ e. e ≡ measure.NoMemory };

    // Lets `?` pass on that memory ran out.
    fn from(_: NoMemory) -> Self {
        MeasureFault::NoMemory
    }
}

/// The reason why a problem is not encoded.
#[derive(Clone, Copy, Debug, Error)]
pub enum EncodeFault {
    /// The table of bounds would have more fresh variables than the budget, or there would be too many variables or clauses.
    /// Then no file is made.
    #[error("limit {which}")]
    Limit { which: LimitKind },
    /// A write failed, and the desk counted it.
    #[error("a write failed")]
    WriteFault,
    /// An allocation was refused.
    #[error("out of memory")]
    NoMemory,
}

impl From<MeasureFault> for EncodeFault {
    ghost from_gives = { λ e f. f ≡ as_encode_fault e };

    // Lets `?` pass on why a problem was not measured.
    fn from(fault: MeasureFault) -> Self {
        match fault {
            MeasureFault::Limit { which } => EncodeFault::Limit { which },
            MeasureFault::NoMemory => EncodeFault::NoMemory,
        }
    }
}

impl From<Failed> for EncodeFault {
    ghost from_gives = { λ _ f. f ≡ encode.WriteFault };

    // Lets `?` report a failed call of the desk, which counted it, as a write fault.
    fn from(_: Failed) -> Self {
        EncodeFault::WriteFault
    }
}

impl From<NoMemory> for EncodeFault {
    ghost from_gives = { λ _ f. f ≡ encode.NoMemory };

    // Lets `?` pass on that memory ran out.
    fn from(_: NoMemory) -> Self {
        EncodeFault::NoMemory
    }
}

impl From<AllocError> for EncodeFault {
    ghost from_gives = { λ _ f. f ≡ encode.NoMemory };

    // Lets `?` report a refused allocation as want of memory.
    fn from(_: AllocError) -> Self {
        EncodeFault::NoMemory
    }
}

impl From<SinkFault> for EncodeFault {
    ghost from_gives = { λ e f. f ≡ of_sink e };

    // Lets `?` report the fault of a sink: a failed one as a write fault.
    fn from(fault: SinkFault) -> Self {
        match fault {
            SinkFault::Failed => EncodeFault::WriteFault,
            SinkFault::NoMemory => EncodeFault::NoMemory,
        }
    }
}
