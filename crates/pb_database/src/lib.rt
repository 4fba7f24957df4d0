//! The live constraints while a derivation is checked, by their ids, and what propagation over them refutes.
#![tactic(auto)]

mod apart;
mod database;
mod entering;
mod idle;
mod index;
mod listed;
mod naming;
mod packed;
mod refutation;
mod rounds;
mod short_lit;
mod short_sum;
mod short_term;
mod slots;

pub use database::Database;
pub use packed::Packed;
