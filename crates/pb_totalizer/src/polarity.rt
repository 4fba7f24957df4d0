//! Which clauses a node of a totalizer has.

/// Which clauses a node has: from its parts to its outputs alone, or from its outputs to its parts too.
#[derive(Clone, Copy)]
pub enum Polarity {
    Up,
    Both,
}

/// Where clauses of a node lead: from its parts to its outputs, or from its outputs to its parts.
#[derive(Clone, Copy)]
pub enum Direction {
    Up,
    Down,
}
