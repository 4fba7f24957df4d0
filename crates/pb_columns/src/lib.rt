//! Statements in numbers: sums in columns, as a caller in C has them.
#![tactic(auto)]

mod fault;
mod heads;
mod literals;
mod number;
mod parts;
mod places;
mod posing;
mod statements;
mod sum;
mod terms;
mod weights;

pub use fault::ColumnFault;
pub use number::{halves, wide};
pub use statements::{Columns, problem_of, statements_of};
pub use sum::PbcnfSum;
