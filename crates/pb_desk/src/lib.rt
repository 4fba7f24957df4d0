//! A desk with files to read, files to write and a place to speak, as a program meets the outside.
#![tactic(auto)]

mod ahead;
mod buffer;
mod desk;
mod fault_plan;
mod limits;
mod line;
mod lines;
mod memory;
mod memory_file;
mod piece;
mod shelf;
mod whole;

pub use desk::{Desk, is_file_end};
pub use limits::LineLimits;
pub use lines::{LineFault, LineReader};
pub use memory::MemoryDesk;
pub use shelf::{Named, Shelf};
pub use whole::{TextFault, read_whole, say_all, write_all};
