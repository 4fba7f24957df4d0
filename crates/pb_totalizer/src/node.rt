//! A node's outputs and those of its parts.
ghost use Rattle.std.specs.Prelude.{◌≡◌, ◌≤◌, ◌+◌, ◌^◌, min};
ghost use Rattle.pb_totalizer.specs.inner.Outputs.{output_count};

use crate::outputs::Outputs;

/// A node's outputs, which are no more than a cap, and those of its two parts.
#[derive(Clone, Copy)]
pub struct Node {
    pub left: Outputs,
    pub right: Outputs,
    pub own: Outputs,
    pub cap: u64,
    ghost left_within: { output_count left ≤ cap },
    ghost right_within: { output_count right ≤ cap },
    ghost counted: { output_count own ≡ min (output_count left + output_count right) cap },
    ghost few: { cap ≤ 2 ^ 31 },
}
