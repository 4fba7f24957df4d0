//! A level over the next one, with its numbers.
ghost use Rattle.std.specs.Prelude.{◌≡◌, ◌≤◌, ◌<◌, ◌+◌, ◌*◌, ◌^◌, length};
ghost use Rattle.pb_diagram.specs.Guards.{last_top};
ghost use Rattle.pb_diagram.specs.inner.OneProof.{level-prop};
ghost use Rattle.pb_diagram.specs.laws.LevelShape.{IsLevel};

use crate::node::Node;
use pb_base::Lit;
use pb_family::fresh_at;

/// A level's literal and coefficient, its nodes and the next level's, the first variables of both, the ids of its nodes' first constraint and
/// of the next level's order.
#[derive(Clone, Copy)]
pub struct Tier<'a> {
    pub lit: &'a Lit,
    pub coef: u128,
    pub nodes: &'a [Node],
    pub next: &'a [Node],
    pub var: u32,
    pub after: u32,
    pub counts: u64,
    pub order: u64,
    ghost low: { 1 ≤ var },
    ghost follows: { after ≡ var + length nodes.now },
    ghost high: { after + length next.now ≤ 2 ^ 31 },
    ghost counts_fit: { counts + 2 * length nodes.now < 2 ^ 62 },
    ghost order_fits: { order + length next.now < 2 ^ 62 },
    ghost light: { coef ≤ 2 ^ 100 },
    ghost ends: { last_top nodes.now ≤ 2 ^ 100 },
    ghost next_ends: { last_top next.now ≤ 2 ^ 100 },
    ghost level: { IsLevel coef nodes.now next.now } by { level-prop coef nodes.now next.now },
}

/// The end of the last node, if there is one.
pub fn last_top(nodes: &[Node]) -> u128
    ensures { result ≡ last_top nodes.now }
{
    match nodes.last() {
        Some(node) => node.top,
        None => 0,
    }
}

impl Tier<'_> {
    ghost use Rattle.std.specs.Prelude.{◌≡◌, ◌<◌, ◌+◌, ◌*◌, length};
    ghost use Rattle.pb_family.specs.Fresh.{positive_of};
    ghost use Rattle.pb_diagram.specs.Guards.{own_of};
    ghost use Rattle.pb_diagram.specs.inner.Tiers.{rung_in};

    /// How much the literal counts: no more than the nodes ask.
    pub fn own(&self) -> u128
        ensures { result ≡ own_of (rung_in self.now) }
    {
        self.coef.min(last_top(self.nodes))
    }

    /// The variable of a node.
    pub fn node(&self, place: usize) -> Lit
        requires { place < length self.now.nodes.now }
        ensures { result ≡ positive_of (self.now.var + place) }
    {
        fresh_at(self.var, place)
    }

    /// The variable of a node of the next level.
    pub fn child(&self, place: u64) -> Lit
        requires { place < length self.now.next.now }
        ensures { result ≡ positive_of (self.now.after + place) }
    {
        fresh_at(self.after, place as usize)
    }

    /// The id of a node's first constraint.
    pub fn forward(&self, place: usize) -> u64
        requires { place < length self.now.nodes.now }
        ensures { result ≡ self.now.counts + 2 * place }
    {
        self.counts + 2 * place as u64
    }

    /// And of its second one.
    pub fn reverse(&self, place: usize) -> u64
        requires { place < length self.now.nodes.now }
        ensures { result ≡ self.now.counts + 2 * place + 1 }
    {
        self.forward(place) + 1
    }
}
