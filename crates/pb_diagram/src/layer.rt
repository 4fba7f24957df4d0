//! A level with the next one.
//!
//! A node's clauses name its children by their index. Children of nodes in order are in order too, so each is looked for at the index
//! of the last node's child and at the one after it, and by binary search only if it is at neither.
ghost use Rattle.std.specs.Prelude.{◌≡◌, All};
ghost use Rattle.pb_norm.specs.Constraints.{weight, weighted, weights};
ghost use Rattle.pb_diagram.specs.inner.Links.{AreInOrder, HasChildren};

use crate::interval::Interval;
use pb_base::Term;

/// A level's nodes with its term, the terms after it, which weigh `whole`, and the next level's nodes.
#[derive(Clone, Copy)]
pub struct Layer<'a> {
    pub term: &'a Term,
    pub rest: &'a [Term],
    pub whole: u128,
    pub nodes: &'a [Interval],
    pub next: &'a [Interval],
    ghost left: { whole ≡ weight (weights rest.now) },
    ghost linked: { All (HasChildren (weighted term.now).coef whole next.now) nodes.now },
    ghost order: { AreInOrder next.now },
}

impl Layer<'_> {
    ghost use Rattle.std.specs.Prelude.{◌≡◌};
    ghost use Rattle.std.specs.List.{position_or_len};
    ghost use Rattle.pb_diagram.specs.Levels.{lies_in};
    ghost use Rattle.pb_diagram.specs.inner.Links.{HasPlace};

    /// The place of the next level's node in which a residue lies.
    pub fn child(&self, residue: u128) -> usize
        requires { HasPlace self.now.next.now residue }
        ensures { result ≡ position_or_len (lies_in residue) self.now.next.now }
    {
        self.next
            .partition_point(|interval| interval.top <= residue)
    }

    /// The same. It is looked for at a place and the one after it first: nodes in order have children in order, so the place of
    /// the child of the node before is near.
    pub fn child_near(&self, near: usize, residue: u128) -> usize
        requires { HasPlace self.now.next.now residue }
        ensures { result ≡ position_or_len (lies_in residue) self.now.next.now }
    {
        for place in near..near.saturating_add(2) {
            if place < self.next.len() {
                let node = self.next[place];
                if node.low <= residue && residue < node.top {
                    return place;
                }
            }
        }
        self.child(residue)
    }
}
