//! The desk of the system: real files and standard output, each answer of which is the system's own.
#![tactic(auto)]

mod file_id;
mod host;
mod known;
mod opened;
mod real;
mod system;

pub use file_id::FileId;
pub use host::Host;
pub use real::{Asks, RealDesk};
pub use system::System;
