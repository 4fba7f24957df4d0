//! The phases of a totalizer's derivation.

/// What is handed over of each node: what its outputs mean, that no fewer of its leaves are true than of its outputs, or its clauses.
#[derive(Clone, Copy)]
pub enum Phase {
    Meanings,
    Sums,
    Clauses,
}
