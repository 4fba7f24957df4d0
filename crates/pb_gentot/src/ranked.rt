//! The values of a node over two parts, with their places.
ghost use Rattle.std.specs.Prelude.{◌≡◌, ◌≤◌, ◌<◌, ◌^◌, All, length, IfOk};
ghost use Rattle.pb_gentot.specs.Generalized.{ascending, sums};
ghost use Rattle.pb_gentot.specs.Rising.{Rising};
ghost use Rattle.pb_gentot.specs.inner.OneProof.{Rising-prop};
ghost use Rattle.pb_gentot.specs.inner.Ranked.{AreRanks};

use crate::ranks::Ranks;
use crate::sets::values_over;
use crate::tables::table_size;
use std::alloc::{AllocError, Global};

/// Values that ascend, and where each of them stands.
#[derive(Drop)]
pub struct Ranked {
    pub values: Vec<u128>,
    ranks: Ranks,
    ghost rising: { Rising values.items } by { Rising-prop values.items },
    ghost ranked: { AreRanks ranks values.items },
}

impl Ranked {
    ghost use Rattle.std.specs.Prelude.{◌≡◌, ◌<◌, length, Contains};
    ghost use Rattle.pb_tree.specs.Places.{place_of};

    /// Where a value stands.
    pub fn place(&self, value: u128) -> usize
        requires { Contains self.now.values.items value }
        ensures place { result ≡ place_of value self.now.values.items }
        ensures within { result < length self.now.values.items }
    {
        self.ranks.place(self.values.as_slice(), value)
    }
}

/// The values of a node over two parts, with their places.
pub fn ranked_over(
    alloc: Global,
    left: &[u128],
    right: &[u128],
    cap: u128,
) -> Result<Ranked, AllocError>
    requires left_small { All (λ u. u ≤ cap) left.now }
    requires right_small { All (λ v. v ≤ cap) right.now }
    requires few { cap < 2 ^ 101 }
    requires fits { length (ascending cap (sums cap left.now right.now)) ≤ 2 ^ 31 }
    ensures { IfOk result (λ made. made.values.items ≡ ascending cap (sums cap left.now right.now)) }
{
    let values = values_over(alloc, left, right, cap)?;
    let size = table_size(cap, left.len(), right.len());
    let ranks = Ranks::of(alloc, values.as_slice(), size)?;
    Ok(Ranked { values, ranks })
}
