//! What is said of one level after another.
use crate::tier::Tier;
use pb_base::Var;
use pb_family::{Pieces, SinkResult, StepSink};
use std::alloc::Global;

/// What is said of a level.
#[derive(Clone, Copy)]
pub enum Kind {
    /// What its nodes mean.
    Nodes,
    /// Their order.
    Order,
    /// Its sum, by a guard and the next level's sum.
    Climb,
    /// Its clauses.
    Clauses,
}

/// A level, what is said of it, and the variable of guards.
#[derive(Clone, Copy)]
pub struct Part<'a> {
    pub tier: Tier<'a>,
    pub kind: Kind,
    pub guard: Var,
}

impl Pieces for Part<'_> {
    ghost use Rattle.pb_diagram.specs.inner.Parts.{count_of, ids_of, piece_of};
    ghost use Rattle.pb_diagram.specs.laws.PartIds.{part_piece_ids};

    ghost piece_count = { λ p. count_of p };

    ghost piece_ids = { λ p. ids_of p };

    ghost piece = { λ p. piece_of p };

    fn count(&self) -> usize {
        match self.kind {
            Kind::Nodes => self.tier.nodes.len(),
            Kind::Order => self.tier.nodes.len().saturating_sub(1),
            _ => 1,
        }
    }

    fn derive_one<T: StepSink>(&self, alloc: Global, number: usize, sink: &mut T) -> SinkResult {
        match self.kind {
            Kind::Nodes => self.tier.derive_node(alloc, number, sink),
            Kind::Order => self.tier.derive_order(alloc, number, sink),
            Kind::Climb => self.tier.derive_climb(alloc, self.guard, sink),
            Kind::Clauses => self.tier.derive_clauses(alloc, sink),
        }
    }

    ghost takes = { λ p next j. part_piece_ids p.kind p.tier p.guard next j };
}
