//! The rules by which steps of a derivation change the live constraints.
#![tactic(auto)]

mod applying;
mod del;
mod fault;
mod form;
mod out;
mod pol;
mod red;
mod rows;
mod rup;

pub use applying::{Applied, apply};
pub use fault::RuleFault;
