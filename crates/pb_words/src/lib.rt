//! The words of the command line, and what they ask for.
#![tactic(auto)]

mod argument;
mod bench;
mod bound;
mod check;
mod command;
mod decode;
mod digits;
mod encode;
mod fault;
mod line;
mod literal;
mod map;
mod optimum;
mod options;
mod probe;
mod program;
mod refute;
mod request;
mod table;
mod wcnf;

pub use bench::BenchArgs;
pub use check::CheckArgs;
pub use decode::DecodeArgs;
pub use encode::EncodeArgs;
pub use fault::WordsFault;
pub use line::parse;
pub use map::MapArgs;
pub use optimum::OptimumArgs;
pub use probe::ProbeArgs;
pub use refute::RefuteArgs;
pub use request::Request;
pub use wcnf::WcnfArgs;
