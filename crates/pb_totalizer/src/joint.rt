//! A node of a totalizer over its two parts, as a derivation goes over it.
ghost use Rattle.std.specs.Prelude.{◌≡◌, ◌≤◌, ◌+◌, ◌^◌, min, suc};
ghost use Rattle.pb_totalizer.specs.inner.Sides.{side_count};

use crate::fresh_row::FreshRow;
use crate::side::Side;

/// A node's outputs, which are no more than a cap, over those of its two parts.
#[derive(Clone, Copy)]
pub struct Joint {
    pub left: Side,
    pub right: Side,
    pub row: FreshRow,
    pub cap: u64,
    ghost left_within: { side_count left ≤ cap },
    ghost right_within: { side_count right ≤ cap },
    ghost inputs: { row.inputs ≡ side_count left + side_count right },
    ghost counted: { suc row.last ≡ min (side_count left + side_count right) cap },
    ghost few: { cap ≤ 2 ^ 31 },
}
