//! Which numbers of true leaves of a node's two parts go together.
ghost use Rattle.std.specs.Prelude.{◌≡◌, ◌≤◌, ◌<◌, ◌+◌, ◌-◌, ◌^◌, ℕ, min};
ghost use Rattle.std.specs.List.{range_with_len};
ghost use Rattle.pb_totalizer.specs.inner.Numbers.{GoTogether, most_by, numbers_by};

use crate::polarity::Direction;

/// How many outputs the parts of a node have and the node itself, which has no more than a cap.
#[derive(Clone, Copy)]
pub struct Counts {
    pub left: u64,
    pub right: u64,
    pub own: u64,
    pub cap: u64,
    ghost left_within: { left ≤ cap },
    ghost right_within: { right ≤ cap },
    ghost counted: { own ≡ min (left + right) cap },
    ghost few: { cap ≤ 2 ^ 31 },
}

/// The least number of the right that one of the left goes with, where their sum is to be 1 at least.
fn least_partner(i: u64) -> u64
    ensures { result ≡ 1 - i }
{
    if i == 0 { 1 } else { 0 }
}

/// The numbers of the right that one of the left goes with: the least one, and how many they are.
pub fn numbers(direction: Direction, counts: &Counts, i: u64) -> (u64, u64)
    requires { i ≤ counts.now.left }
    ensures few { result.0 + result.1 ≤ 2 ^ 32 }
    ensures row { range_with_len result.0 result.1 ≡ numbers_by direction (most_by direction counts.now.cap counts.now.own) counts.now.right i }
    ensures together { (j : ℕ) → result.0 ≤ j → j < result.0 + result.1 → GoTogether direction counts.now.left counts.now.right (most_by direction counts.now.cap counts.now.own) i j }
{
    match direction {
        Direction::Up => {
            let low = least_partner(i);
            (low, counts.right.min(counts.cap - i) + 1 - low)
        }
        Direction::Down => (0, (counts.right + 1).min(counts.own - i)),
    }
}
