//! Why a model text was not read.
use pb_base::{Expected, LimitKind, NoMemory, Place};
use std::alloc::AllocError;
use thiserror::Error;

/// The first fault of a model text, with the place of its word (none where the whole text is too
/// long), or want of memory.
#[derive(Clone, Copy, Debug, Error)]
pub enum ModelFault {
    /// No model text goes on so; this could have stood there.
    #[error("{place}: expected {expected}")]
    Token {
        place: Place,
        expected: Expected,
    },
    /// A limit is passed there.
    #[error("limit {which}")]
    Limit {
        place: Option<Place>,
        which: LimitKind,
    },
    /// An allocation was refused.
    #[error("out of memory")]
    NoMemory,
}

impl From<AllocError> for ModelFault {
    ghost use Rattle.std.specs.Prelude.{◌≡◌};
    ghost use Rattle.pb_model.specs.declared.fault.ModelFault.TheVariants as fault;

    ghost from_gives = { λ _ e. e ≡ fault.NoMemory };

    // Lets `?` report a refused allocation as want of memory.
    fn from(_: AllocError) -> Self {
        ModelFault::NoMemory
    }
}
