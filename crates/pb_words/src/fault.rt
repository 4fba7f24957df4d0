//! Why no request was taken from the words.
ghost use Rattle.std.specs.Prelude.{◌≡◌};
ghost use Rattle.pb_words.specs.declared.fault.WordsFault.TheVariants.{NoMemory};

use std::alloc::AllocError;
use thiserror::Error;

/// The reason why the words are no request.
#[derive(Clone, Copy, Debug, Error)]
pub enum WordsFault {
    /// The words are none that the program takes.
    #[error("usage: encode, check, decode, probe or bench")]
    Usage,
    /// An allocation was refused.
    #[error("out of memory")]
    NoMemory,
}

impl From<AllocError> for WordsFault {
    ghost from_gives = { λ _ fault. fault ≡ NoMemory };

    // Lets `?` report a refused allocation as want of memory.
    fn from(_: AllocError) -> Self {
        WordsFault::NoMemory
    }
}
