//! The models that solvers print, and the solutions that they give.
#![tactic(auto)]

mod appending;
mod decoding;
mod fault;
mod laws;
mod line;
mod listing;
mod meaning;
mod model;
mod naming;
mod read;
mod reader;
mod solution;
mod widened;

pub use decoding::{Decoded, decode};
pub use fault::ModelFault;
pub use laws::told_exactly;
pub use model::{Model, Says};
pub use naming::write_map;
pub use read::read_model;
pub use solution::{objective_of, write_optimum, write_solution};
