//! A node of a totalizer whose parts have many outputs, as windows go over blocks of them.
ghost use Rattle.std.specs.Prelude.{◌≡◌, ◌≤◌, ◌<◌, ◌+◌, ◌*◌, ◌^◌, min};
ghost use Rattle.pb_totalizer.specs.inner.Windows.{last_block};

use crate::block_lines::block_end;

/// A node by its numbers: the id of its outputs' first constraint, over how many inputs they are, how many outputs its parts and the
/// node have, and how many at most, and where the lines about the parts' blocks and about each number of their outputs stand.
#[derive(Clone, Copy)]
pub struct LargeNode {
    pub row: u64,
    pub inputs: u64,
    pub left: u64,
    pub right: u64,
    pub own: u64,
    pub cap: u64,
    pub left_narrows: u64,
    pub right_narrows: u64,
    pub left_others: u64,
    pub right_others: u64,
    ghost left_some: { 1 ≤ left },
    ghost right_some: { 1 ≤ right },
    ghost left_within: { left ≤ cap },
    ghost right_within: { right ≤ cap },
    ghost counted: { own ≡ min (left + right) cap },
    ghost few: { cap ≤ 2 ^ 31 },
    ghost room: { row + 2 * own ≤ 2 ^ 62 },
    ghost left_narrow_room: { left_narrows + last_block left < 2 ^ 62 },
    ghost right_narrow_room: { right_narrows + last_block right < 2 ^ 62 },
    ghost left_room: { left_others + left < 2 ^ 62 },
    ghost right_room: { right_others + right < 2 ^ 62 },
}

/// The last block of so many outputs.
pub fn last_block(count: u64) -> u64
    requires { 1 ≤ count }
    ensures { result ≡ last_block count }
{
    (count - 1) / 32
}

impl LargeNode {
    ghost use Rattle.std.specs.Prelude.{◌≡◌, ◌≤◌, ◌+◌};
    ghost use Rattle.pb_totalizer.specs.inner.Larges.{large_of};
    ghost use Rattle.pb_totalizer.specs.inner.Windows.{last_block, sum_in, windows_of};

    /// How many windows each block of the left has.
    pub fn windows(&self) -> u64
        ensures { result ≡ windows_of (large_of self.now) }
    {
        65 * (1 + last_block(self.right))
    }

    /// The sum that a window of two blocks is about.
    pub fn sum(&self, block: u64, other: u64, place: u64) -> u64
        requires left { block ≤ last_block self.now.left }
        requires right { other ≤ last_block self.now.right }
        requires place { place ≤ 64 }
        ensures is { result ≡ sum_in (large_of self.now) block other place }
        ensures some { 1 ≤ result }
        ensures within { result ≤ self.now.own }
    {
        let left = block_end(self.left - 1, 32 * block);
        let right = block_end(self.right - 1, 32 * other);
        (32 * block + 32 * other + place)
            .min(self.own.min(left + right + 2))
            .max(1)
    }
}
