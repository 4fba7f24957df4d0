//! The lines about a row of fresh variables in blocks of 32.
ghost use Rattle.std.specs.Prelude.{◌≡◌, ◌≤◌, ◌<◌, ◌+◌, ◌*◌, ◌^◌};
ghost use Rattle.pb_totalizer.specs.OutputBlocks.{block_end, block_size};

use crate::fresh_row::RowLines;
use pb_family::{SinkResult, StepSink, derive_line, over, times};
use pb_steps::PolOp;
use std::alloc::Global;

/// A row with the id of the first line about it, where all lines have room that are about its blocks too.
#[derive(Clone, Copy)]
pub struct BlockLines {
    pub lines: RowLines,
    ghost room: { lines.next + block_size lines.row.last < 2 ^ 62 },
}

/// The last place of the block of a place.
pub fn block_end(last: u64, place: u64) -> u64
    requires { place < 2 ^ 62 }
    ensures { result ≡ block_end last place }
{
    (32 * (place / 32) + 31).min(last)
}

impl BlockLines {
    ghost use Rattle.std.specs.Prelude.{◌≡◌, ◌≤◌, ◌<◌, ◌+◌, ◌*◌, ◌^◌, [], ◌∷◌, suc};
    ghost use Rattle.pb_family.specs.StepSinks.{HandsSteps};
    ghost use Rattle.pb_totalizer.specs.OutputBlocks.{block_front_at, block_front_line, block_tail_line, block_others_line};
    ghost use Rattle.pb_totalizer.specs.inner.BlockPieces.{heads_of, backs_of, head_piece, back_piece, other_piece, narrow_piece};

    // The id of the first line about those of a block before a variable.
    fn heads(&self) -> u64
        ensures { result ≡ heads_of self.now }
    {
        self.lines.tails() + (2 + self.lines.row.last)
    }

    // The id of the first line about those of a block behind a variable.
    fn backs(&self) -> u64
        ensures { result ≡ backs_of self.now }
    {
        self.heads() + (1 + self.lines.row.last)
    }

    // Hands over that where the variable behind a place is true, so are those of the place's block up to it.
    fn derive_next_head<T: StepSink>(&self, alloc: Global, place: u64, sink: &mut T) -> SinkResult
        requires within { place < self.now.lines.row.last }
        requires few { (T.state sink.old).next < 2 ^ 62 }
        ensures { HandsSteps (block_front_line self.now.lines.row.id self.now.lines.row.inputs (heads_of self.now) place ∷ []) result (T.state sink.old) (T.state sink.new) }
    {
        let row = self.lines.row;
        if place % 32 == 0 {
            let ops = [
                PolOp::Push(row.id + 2 * (1 + place)),
                PolOp::Push(row.id + 2 * place + 1),
                PolOp::Add,
                over(row.inputs),
                times(1 + place),
            ];
            return derive_line(alloc, &ops, sink);
        }
        let ops = [
            PolOp::Push(self.heads() + place),
            PolOp::Push(row.id + 2 * (1 + place)),
            PolOp::Push(row.id + 2 * place + 1),
            PolOp::Add,
            over(row.inputs),
            times(1 + place),
            PolOp::Add,
        ];
        derive_line(alloc, &ops, sink)
    }

    /// Hands over that where the variable at a place is true, so are those before it of the block of the place before.
    pub fn derive_head<T: StepSink>(&self, alloc: Global, place: u64, sink: &mut T) -> SinkResult
        requires within { place ≤ self.now.lines.row.last }
        requires few { (T.state sink.old).next < 2 ^ 62 }
        ensures { HandsSteps (head_piece self.now place ∷ []) result (T.state sink.old) (T.state sink.new) }
    {
        if place == 0 {
            return self.lines.derive_nothing(alloc, sink);
        }
        self.derive_next_head(alloc, place - 1, sink)
    }

    // Hands over that those of the block behind a place are at least 0, by what is said from the next place on.
    fn derive_next_back<T: StepSink>(&self, alloc: Global, number: u64, sink: &mut T) -> SinkResult
        requires within { number < self.now.lines.row.last }
        requires few { (T.state sink.old).next < 2 ^ 62 }
        ensures { HandsSteps (block_tail_line self.now.lines.row.first self.now.lines.row.last (backs_of self.now) number ∷ []) result (T.state sink.old) (T.state sink.new) }
    {
        let place = self.lines.row.last - number;
        if place % 32 == 0 {
            return self.lines.derive_nothing(alloc, sink);
        }
        let ops = [
            PolOp::Push(self.backs() + number),
            PolOp::Axiom(self.lines.row.bit(place)),
            PolOp::Add,
        ];
        derive_line(alloc, &ops, sink)
    }

    /// Hands over that those of the block behind a place are at least 0, of which the last place has the number 0.
    pub fn derive_back<T: StepSink>(&self, alloc: Global, number: u64, sink: &mut T) -> SinkResult
        requires within { number ≤ self.now.lines.row.last }
        requires few { (T.state sink.old).next < 2 ^ 62 }
        ensures { HandsSteps (back_piece self.now number ∷ []) result (T.state sink.old) (T.state sink.new) }
    {
        if number == 0 {
            return self.lines.derive_nothing(alloc, sink);
        }
        self.derive_next_back(alloc, number - 1, sink)
    }

    // The id of the line about those of the block before a place.
    fn head_at(&self, place: u64) -> u64
        requires within { place ≤ self.now.lines.row.last }
        ensures { result ≡ block_front_at (heads_of self.now) place }
    {
        if place % 32 == 0 {
            self.heads()
        } else {
            self.heads() + place
        }
    }

    // Hands over that all of the first block are at least 0.
    fn derive_first_block<T: StepSink>(&self, alloc: Global, sink: &mut T) -> SinkResult
        requires few { (T.state sink.old).next < 2 ^ 62 }
        ensures { HandsSteps (other_piece self.now 0 ∷ []) result (T.state sink.old) (T.state sink.new) }
    {
        let ops = [
            PolOp::Push(self.backs() + self.lines.row.last),
            PolOp::Axiom(self.lines.row.bit(0)),
            PolOp::Add,
        ];
        derive_line(alloc, &ops, sink)
    }

    // Hands over what is said of all of a block but the variable at a place.
    fn derive_but<T: StepSink>(&self, alloc: Global, place: u64, sink: &mut T) -> SinkResult
        requires within { place ≤ self.now.lines.row.last }
        requires few { (T.state sink.old).next < 2 ^ 62 }
        ensures { HandsSteps (block_others_line self.now.lines.row.last (heads_of self.now) (backs_of self.now) place ∷ []) result (T.state sink.old) (T.state sink.new) }
    {
        let ops = [
            PolOp::Push(self.head_at(place)),
            PolOp::Push(self.backs() + (self.lines.row.last - place)),
            PolOp::Add,
        ];
        derive_line(alloc, &ops, sink)
    }

    /// Hands over what is said of all of a block but one, or, with the number 0, of all of the first block.
    pub fn derive_others<T: StepSink>(&self, alloc: Global, number: u64, sink: &mut T) -> SinkResult
        requires within { number ≤ self.now.lines.row.last + 1 }
        requires few { (T.state sink.old).next < 2 ^ 62 }
        ensures { HandsSteps (other_piece self.now number ∷ []) result (T.state sink.old) (T.state sink.new) }
    {
        if number == 0 {
            return self.derive_first_block(alloc, sink);
        }
        self.derive_but(alloc, number - 1, sink)
    }

    /// Hands over what is said of all outside a block.
    pub fn derive_narrow<T: StepSink>(&self, alloc: Global, block: u64, sink: &mut T) -> SinkResult
        requires within { 32 * block ≤ self.now.lines.row.last }
        requires few { (T.state sink.old).next < 2 ^ 62 }
        ensures { HandsSteps (narrow_piece self.now block ∷ []) result (T.state sink.old) (T.state sink.new) }
    {
        let last = self.lines.row.last;
        let ops = [
            PolOp::Push(self.lines.next + 32 * block),
            PolOp::Push(self.lines.tails() + (last - block_end(last, 32 * block))),
            PolOp::Add,
        ];
        derive_line(alloc, &ops, sink)
    }
}
