//! The generator of problems.
#![tactic(auto)]

mod drawn;
mod draws;
mod generating;
mod laws;
mod printing;

pub use generating::generate;
pub use laws::generated_text_reads;
