//! The operations on constraints that the rules of a derivation use, each equal to its definition.
#![tactic(auto)]

mod algebra;
mod implication;
mod join;
mod substitution;
mod terms;

pub use algebra::{axiom, division, multiple, negation, plus, saturation, weakening, weakenings};
pub use implication::{implies, negation_implies};
pub use substitution::{degree_left, names_set, restricted, restriction};
