//! A node over its two parts, by their values and literals.
ghost use Rattle.std.specs.Prelude.{◌≡◌, ◌≤◌, ◌<◌, ◌+◌, ◌^◌, All, length};
ghost use Rattle.pb_gentot.specs.Generalized.{ascending, sums};
ghost use Rattle.pb_gentot.specs.Rising.{Rising};
ghost use Rattle.pb_gentot.specs.inner.OneProof.{HasRoom-prop, Rising-prop};
ghost use Rattle.pb_gentot.specs.inner.Outputs.{HasRoom};

use crate::outputs::Outputs;
use crate::ranked::Ranked;
use pb_base::Lit;
use pb_family::fresh_at;

/// What a part leaves to what stands over it: its values, and a literal for each.
#[derive(Drop)]
pub struct Emitted {
    pub values: Vec<u128>,
    pub outputs: Outputs,
    ghost rising: { Rising values.items } by { Rising-prop values.items },
    ghost room: { HasRoom outputs (length values.items) } by { HasRoom-prop outputs (length values.items) },
}

/// A node, its parts, the first of its fresh variables, and the greatest value that there is.
#[derive(Clone, Copy)]
pub struct Merge<'a> {
    pub left: &'a Emitted,
    pub right: &'a Emitted,
    pub own: &'a Ranked,
    pub first: u32,
    pub cap: u128,
    ghost left_within: { All (λ u. u ≤ cap) left.now.values.items },
    ghost right_within: { All (λ v. v ≤ cap) right.now.values.items },
    ghost made: { own.now.values.items ≡ ascending cap (sums cap left.now.values.items right.now.values.items) },
    ghost few: { cap < 2 ^ 101 },
    ghost low: { 1 ≤ first },
    ghost high: { first + length own.now.values.items ≤ 2 ^ 31 },
}

impl Merge<'_> {
    ghost use Rattle.std.specs.Prelude.{◌≡◌, Contains};
    ghost use Rattle.pb_gentot.specs.inner.Nodes.{own_output};

    /// The literal of a value of the node.
    pub fn literal(&self, value: u128) -> Lit
        requires { Contains self.now.own.now.values.items value }
        ensures { result ≡ own_output self.now value }
    {
        fresh_at(self.first, self.own.place(value))
    }
}
