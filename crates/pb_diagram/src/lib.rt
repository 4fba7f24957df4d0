//! Interval diagrams (Abío, Nieuwenhuis, Oliveras, Rodríguez-Carbonell and Mayer-Eichberger 2012): a bounded sum with any
//! coefficients, with a node for each interval of what the terms from a level on may still add up to.
#![tactic(auto)]

mod claims;
mod counts;
mod derivation;
mod diagram;
mod emission;
mod guarded;
mod interval;
mod known;
mod laws;
mod layer;
mod level;
mod lines;
mod node;
mod nodes;
mod parts;
mod run;
mod search;
mod shape;
mod side;
mod stage;
mod tier;

pub use diagram::Diagram;
pub use laws::{children_are_of_nodes, nodes_are_intervals};
