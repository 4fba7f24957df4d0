//! The terms and levels of a diagram.
ghost use Rattle.std.specs.Prelude.{◌≡◌, ◌<◌, ◌^◌};
ghost use Rattle.pb_norm.specs.Constraints.{weight, weights};
ghost use Rattle.pb_norm.specs.BoundedSums.{sum_within};
ghost use Rattle.pb_diagram.specs.Clauses.{diagram_fresh};
ghost use Rattle.pb_diagram.specs.Levels.{levels_of};

use crate::layer::Layer;
use crate::level::{Level, nodes_after};
use pb_base::Term;

/// The terms of a bounded sum and the levels of its diagram, which have `fresh` nodes.
#[derive(Clone, Copy)]
pub struct Shape<'a> {
    pub terms: &'a [Term],
    pub bound: u128,
    pub levels: &'a [Level],
    pub fresh: u64,
    ghost light: { weight (weights terms.now) < 2 ^ 100 },
    ghost nodes: { levels.now ≡ levels_of (sum_within terms.now bound) },
    ghost count: { fresh ≡ diagram_fresh (sum_within terms.now bound) },
    ghost small: { fresh < 2 ^ 31 },
}

impl<'a> Shape<'a> {
    ghost use Rattle.std.specs.Prelude.{◌≡◌, ◌<◌, ◌+◌, drop, length, slice_index_or};
    ghost use Rattle.pb_norm.specs.Constraints.{weight, weights};
    ghost use Rattle.pb_diagram.specs.laws.Search.{nodes_at};

    /// The level at a place, where the terms from there on weigh so much.
    pub fn layer(&self, place: usize, all: u128) -> Layer<'a>
        requires within { place < length self.now.terms.now }
        requires left { all ≡ weight (drop place (weights self.now.terms.now)) }
        ensures term { result.term.now ≡ slice_index_or self.now.terms.now place result.term.now }
        ensures rest { weights result.rest.now ≡ drop (place + 1) (weights self.now.terms.now) }
        ensures nodes { result.nodes.now ≡ nodes_at self.now.levels.now place }
        ensures next { result.next.now ≡ nodes_at self.now.levels.now (place + 1) }
    {
        let terms = self.terms;
        let term = &terms[place];
        Layer {
            term,
            rest: &terms[place + 1..],
            whole: all - term.weight(),
            nodes: nodes_after(self.levels, place),
            next: nodes_after(self.levels, place + 1),
        }
    }
}
