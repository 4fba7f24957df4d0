//! Sums encoded along a tree that splits the terms in halves: the halves, the walk along the tree, its clauses, and their laws.
#![tactic(auto)]

mod derivation;
mod halving;
mod meanings;
mod sum;
mod walk;

pub use derivation::{TreeClaims, derive_along};
pub use halving::halves;
pub use sum::TreeSum;
pub use walk::{Parts, Placed, Walk, walk_along};
