//! Where the constraints of a node's outputs and of its parts' stand.
ghost use Rattle.std.specs.Prelude.{◌≡◌, ◌≤◌, ◌<◌, ◌+◌, ◌*◌, ◌^◌, All, length};
ghost use Rattle.pb_gentot.specs.Generalized.{ascending, sums};
ghost use Rattle.pb_gentot.specs.Rising.{Rising};
ghost use Rattle.pb_gentot.specs.inner.Ids.{HasIds};
ghost use Rattle.pb_gentot.specs.inner.OneProof.{HasIds-prop, Rising-prop};

use crate::ranked::Ranked;

/// Where the outputs of a part have their constraints: a leaf has none, else the first one's have an id and the next.
#[derive(Clone, Copy)]
pub enum Source {
    Leaf,
    Fresh(u64),
}

/// What a part leaves to what stands over it: its values, and where their constraints stand.
#[derive(Drop)]
pub struct Handed {
    pub values: Vec<u128>,
    pub source: Source,
    ghost rising: { Rising values.items } by { Rising-prop values.items },
    ghost ids: { HasIds source (length values.items) } by { HasIds-prop source (length values.items) },
}

/// A node, its parts, the id of its first output's constraint, and the greatest value that there is.
#[derive(Clone, Copy)]
pub struct NodeIds<'a> {
    pub left: &'a Handed,
    pub right: &'a Handed,
    pub own: &'a Ranked,
    pub id: u64,
    pub cap: u128,
    ghost left_within: { All (λ u. u ≤ cap) left.now.values.items },
    ghost right_within: { All (λ v. v ≤ cap) right.now.values.items },
    ghost made: { own.now.values.items ≡ ascending cap (sums cap left.now.values.items right.now.values.items) },
    ghost few: { cap < 2 ^ 101 },
    ghost ids: { id + 2 * length own.now.values.items < 2 ^ 62 },
}

impl NodeIds<'_> {
    ghost use Rattle.std.specs.Prelude.{◌≡◌, Contains};
    ghost use Rattle.pb_gentot.specs.inner.Sources.{second_of};

    /// The id of the second constraint of a value of the node.
    pub fn second(&self, value: u128) -> u64
        requires { Contains self.now.own.now.values.items value }
        ensures { result ≡ second_of self.now value }
    {
        self.id + 2 * self.own.place(value) as u64 + 1
    }
}
