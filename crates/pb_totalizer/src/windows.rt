//! The windows of a block of a large node: outputs' second constraints, narrowed to two blocks.
ghost use Rattle.std.specs.Prelude.{◌≤◌, ◌<◌, ◌+◌, ◌^◌, [], ◌∷◌};
ghost use Rattle.pb_family.specs.StepSinks.{HandsSteps};
ghost use Rattle.pb_totalizer.specs.inner.Larges.{large_of};
ghost use Rattle.pb_totalizer.specs.inner.Windows.{last_block, window_in, windows_in, windows_of};

use crate::large_node::LargeNode;
use pb_family::{Pieces, SinkResult, StepSink, derive_line, derive_pieces};
use pb_steps::PolOp;
use std::alloc::Global;

// Those of a block of the left, for each block of the right.
#[derive(Clone, Copy)]
struct Windows<'a> {
    of: &'a LargeNode,
    block: u64,
    ghost within: { block ≤ last_block of.now.left },
}

// Hands over a window.
fn derive_window<T: StepSink>(
    alloc: Global,
    of: &LargeNode,
    block: u64,
    number: u64,
    sink: &mut T,
) -> SinkResult
    requires left { block ≤ last_block of.now.left }
    requires right { number < windows_of (large_of of.now) }
    requires few { (T.state sink.old).next < 2 ^ 62 }
    ensures { HandsSteps (window_in (large_of of.now) block number ∷ []) result (T.state sink.old) (T.state sink.new) }
{
    let other = number / 65;
    let sum = of.sum(block, other, number % 65);
    let ops = [
        PolOp::Push(of.row + 2 * (sum - 1) + 1),
        PolOp::Push(of.left_narrows + block),
        PolOp::Add,
        PolOp::Push(of.right_narrows + other),
        PolOp::Add,
    ];
    derive_line(alloc, &ops, sink)
}

impl<'a> Pieces for Windows<'a> {
    ghost use Rattle.std.specs.Prelude.{◌∷◌, [], refl};
    ghost use Rattle.pb_totalizer.specs.inner.Larges.{large_of};
    ghost use Rattle.pb_totalizer.specs.inner.Windows.{window_in, windows_of};

    ghost piece_count = { λ w. windows_of (large_of w.of.now) };

    ghost piece_ids = { λ w. 1 };

    ghost piece = { λ w next number. window_in (large_of w.of.now) w.block number ∷ [] };

    fn count(&self) -> usize {
        self.of.windows() as usize
    }

    fn derive_one<T: StepSink>(&self, alloc: Global, number: usize, sink: &mut T) -> SinkResult {
        derive_window(alloc, self.of, self.block, number as u64, sink)
    }

    ghost takes = { λ w next number. refl };
}

/// Hands over the windows of a block.
pub fn derive_windows<T: StepSink>(
    alloc: Global,
    of: &LargeNode,
    block: u64,
    sink: &mut T,
) -> SinkResult
    requires within { block ≤ last_block of.now.left }
    requires few { (T.state sink.old).next + windows_of (large_of of.now) < 2 ^ 62 }
    ensures { HandsSteps (windows_in (large_of of.now) block) result (T.state sink.old) (T.state sink.new) }
{
    let windows = Windows { of, block };
    derive_pieces(alloc, &windows, sink)
}
