//! The clauses of a block of a large node, by its windows.
ghost use Rattle.std.specs.Prelude.{◌≡◌, ◌≤◌, ◌<◌, ◌+◌, ◌^◌, ℕ, ◌∷◌, [], length};
ghost use Rattle.pb_derive.specs.Claims.{claim_steps};
ghost use Rattle.pb_family.specs.StepSinks.{HandsFrom};
ghost use Rattle.pb_totalizer.specs.OutputWindows.{block_with, first_number, number_count};
ghost use Rattle.pb_totalizer.specs.inner.Larges.{large_of};
ghost use Rattle.pb_totalizer.specs.inner.Numbers.{AreSummed};
ghost use Rattle.pb_totalizer.specs.inner.Windows.{claim_in, claims_in, last_block, row_in, windows_of};

use crate::block_lines::block_end;
use crate::large_node::LargeNode;
use crate::numbers::{Counts, numbers};
use crate::polarity::Direction;
use pb_family::{Pieces, SinkResult, StepSink, derive_line, derive_pieces, over};
use pb_steps::{PolOp, Step};
use std::alloc::Global;

/// A block of the left part, and the id of its first window.
#[derive(Clone, Copy)]
pub struct Block<'a> {
    pub of: &'a LargeNode,
    pub number: u64,
    pub windows: u64,
    ghost within: { number ≤ last_block of.now.left },
    ghost room: { windows + windows_of (large_of of.now) < 2 ^ 62 },
}

// The first number of a block of outputs: none goes with the first ones.
fn first_number(block: u64) -> u64
    requires { block < 2 ^ 32 }
    ensures { result ≡ first_number block }
{
    if block == 0 { 0 } else { 32 * block + 1 }
}

// The block of a number of outputs.
fn block_with(number: u64) -> u64
    ensures { result ≡ block_with number }
{
    number.saturating_sub(1) / 32
}

// Hands over that where i of the left are true and j of the right, i + j are.
fn derive_claim<T: StepSink>(
    alloc: Global,
    block: &Block,
    i: u64,
    j: u64,
    sink: &mut T,
) -> SinkResult
    requires pair { AreSummed block.now.of.now.left block.now.of.now.right block.now.of.now.cap i j }
    requires here { block_with i ≡ block.now.number }
    requires few { (T.state sink.old).next + 1 < 2 ^ 62 }
    ensures { HandsFrom (λ next. claim_steps next (claim_in (large_of block.now.of.now) block.now.windows block.now.number i j ∷ [])) result (T.state sink.old) (T.state sink.new) }
{
    let id = sink.next_id();
    let other = block_with(j);
    let place = i + j - 32 * block.number - 32 * other;
    let ops = [
        PolOp::Push(block.windows + (65 * other + place)),
        PolOp::Push(block.of.left_others + i),
        PolOp::Add,
        PolOp::Push(block.of.right_others + j),
        PolOp::Add,
        over(block.of.inputs),
    ];
    derive_line(alloc, &ops, sink)?;
    sink.step(&Step::Out { id })
}

// The clauses of one number of the left, which goes with so many of the right from one on.
#[derive(Clone, Copy)]
struct BlockRow<'a> {
    block: &'a Block<'a>,
    i: u64,
    low: u64,
    count: u64,
    ghost here: { block_with i ≡ block.now.number },
    ghost together: { (k : ℕ) → k < count → AreSummed block.now.of.now.left block.now.of.now.right block.now.of.now.cap i (low + k) },
    ghost few: { count ≤ 2 ^ 32 },
}

impl<'a> Pieces for BlockRow<'a> {
    ghost use Rattle.std.specs.Prelude.{◌+◌, ◌∷◌, [], refl};
    ghost use Rattle.pb_derive.specs.Claims.{claim_steps};
    ghost use Rattle.pb_totalizer.specs.inner.Larges.{large_of};
    ghost use Rattle.pb_totalizer.specs.inner.Windows.{claim_in};

    ghost piece_count = { λ r. r.count };

    ghost piece_ids = { λ r. 1 };

    ghost piece = { λ r next k. claim_steps next (claim_in (large_of r.block.now.of.now) r.block.now.windows r.block.now.number r.i (r.low + k) ∷ []) };

    fn count(&self) -> usize {
        self.count as usize
    }

    fn derive_one<T: StepSink>(&self, alloc: Global, number: usize, sink: &mut T) -> SinkResult {
        derive_claim(alloc, self.block, self.i, self.low + number as u64, sink)
    }

    ghost takes = { λ r next k. refl };
}

// Hands over the clauses of one number of the left.
fn derive_row<T: StepSink>(alloc: Global, block: &Block, i: u64, sink: &mut T) -> SinkResult
    requires within { i ≤ block.now.of.now.left }
    requires here { block_with i ≡ block.now.number }
    requires room { (T.state sink.old).next + length (row_in (large_of block.now.of.now) block.now.windows block.now.number i) < 2 ^ 62 }
    ensures { HandsFrom (λ next. claim_steps next (row_in (large_of block.now.of.now) block.now.windows block.now.number i)) result (T.state sink.old) (T.state sink.new) }
{
    let counts = Counts {
        left: block.of.left,
        right: block.of.right,
        own: block.of.own,
        cap: block.of.cap,
    };
    let (low, count) = numbers(Direction::Up, &counts, i);
    let row = BlockRow {
        block,
        i,
        low,
        count,
    };
    derive_pieces(alloc, &row, sink)
}

/// Hands over the clauses.
pub fn derive_block_claims<T: StepSink>(alloc: Global, block: &Block, sink: &mut T) -> SinkResult
    requires room { (T.state sink.old).next + length (claims_in (large_of block.now.of.now) block.now.windows block.now.number) < 2 ^ 62 }
    ensures { HandsFrom (λ next. claim_steps next (claims_in (large_of block.now.of.now) block.now.windows block.now.number)) result (T.state sink.old) (T.state sink.new) }
{
    let first = first_number(block.number);
    let count = block_end(block.of.left - 1, 32 * block.number) + 2 - first;
    for place in 0..count {
        derive_row(alloc, block, first + place, sink)?;
    }
    Ok(())
}
