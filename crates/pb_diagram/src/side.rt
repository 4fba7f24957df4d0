//! The two children of a node, and how far nodes reach by one of them.
ghost use Rattle.std.specs.Prelude.{◌≡◌, ◌≤◌, length};
ghost use Rattle.pb_diagram.specs.Guards.{reach_by};
ghost use Rattle.pb_diagram.specs.inner.Tiers.{IsReached, child_on};
ghost use Rattle.pb_diagram.specs.laws.LevelShape.{AreSorted};

use crate::node::Node;

/// One of the two children.
#[derive(Clone, Copy)]
pub enum Side {
    Off,
    On,
}

impl Side {
    ghost use Rattle.std.specs.Prelude.{◌≡◌};
    ghost use Rattle.pb_diagram.specs.inner.Tiers.{child_on, is_near, top_with};

    /// The child on this side.
    fn child(&self, node: Node) -> Option<u64>
        ensures { result ≡ child_on self.now node }
    {
        match self {
            Side::Off => node.off,
            Side::On => node.on,
        }
    }

    /// True if it is at most at a place, or there is none.
    fn is_by(&self, node: Node, place: u64) -> bool
        ensures { result ≡ is_near (child_on self.now node) place }
    {
        match self.child(node) {
            Some(child) => child <= place,
            None => true,
        }
    }

    /// The node's end, if it has the child.
    fn top(&self, node: Node) -> u128
        ensures { result ≡ top_with (child_on self.now node) node.top }
    {
        match self.child(node) {
            Some(_) => node.top,
            None => 0,
        }
    }
}

/// How many nodes were seen, and how far they reach.
#[derive(Clone, Copy)]
pub struct Reach {
    pub seen: usize,
    pub top: u128,
}

/// How far the nodes reach whose child is at most at a place, by those that were seen before.
pub fn reach_at(side: Side, nodes: &[Node], before: Reach, place: u64) -> Reach
    requires sorted { AreSorted nodes.now }
    requires seen { before.seen ≤ length nodes.now }
    requires before { IsReached (child_on side) nodes.now before.seen before.top place }
    ensures within { result.seen ≤ length nodes.now }
    ensures after { IsReached (child_on side) nodes.now result.seen result.top place }
    ensures top { reach_by (child_on side) nodes.now place ≡ result.top }
{
    let mut top = before.top;
    for seen in before.seen..nodes.len() {
        let node = nodes[seen];
        if !side.is_by(node, place) {
            return Reach { seen, top };
        }
        top = top.max(side.top(node));
    }
    Reach {
        seen: nodes.len(),
        top,
    }
}
