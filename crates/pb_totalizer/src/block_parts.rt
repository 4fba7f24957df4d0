//! The lines about the blocks of a row of fresh variables, kind by kind.
ghost use Rattle.std.specs.Prelude.{◌≡◌, ◌<◌, ◌+◌, ◌^◌, IfOk};
ghost use Rattle.pb_family.specs.StepSinks.{HandsFrom, HandsSteps};
ghost use Rattle.pb_totalizer.specs.OutputBlocks.{block_lines, block_size};
ghost use Rattle.pb_totalizer.specs.inner.BlockParts.{block_parts};

use crate::block_lines::BlockLines;
use crate::fresh_row::{FreshRow, RowLines};
use pb_family::{Pieces, SinkResult, StepSink, derive_parts};
use std::alloc::Global;

/// The lines that say the same of one variable after another: of those before it and behind it, in the row or in its block, of all
/// others of its block; and of one block after another, of those outside it.
#[derive(Clone, Copy)]
pub enum BlockKind {
    Fronts,
    Tails,
    Heads,
    Backs,
    Others,
    Narrows,
}

/// Those of one kind.
#[derive(Clone, Copy)]
pub struct BlockPart {
    pub lines: BlockLines,
    pub kind: BlockKind,
}

impl Pieces for BlockPart {
    ghost use Rattle.pb_totalizer.specs.inner.BlockPieces.{block_count, block_piece};
    ghost use Rattle.pb_totalizer.specs.laws.PieceIds.{block_piece_ids};

    ghost piece_count = { λ p. block_count p.kind p.lines.lines.row.last };

    ghost piece_ids = { λ p. 1 };

    ghost piece = { λ p. block_piece p.kind p.lines };

    fn count(&self) -> usize {
        let last = self.lines.lines.row.last as usize;
        match self.kind {
            BlockKind::Tails | BlockKind::Others => 2 + last,
            BlockKind::Narrows => 1 + last / 32,
            _ => 1 + last,
        }
    }

    fn derive_one<T: StepSink>(&self, alloc: Global, number: usize, sink: &mut T) -> SinkResult {
        let place = number as u64;
        match self.kind {
            BlockKind::Fronts => self.lines.lines.derive_front(alloc, place, sink),
            BlockKind::Tails => self.lines.lines.derive_tail(alloc, place, sink),
            BlockKind::Heads => self.lines.derive_head(alloc, place, sink),
            BlockKind::Backs => self.lines.derive_back(alloc, place, sink),
            BlockKind::Others => self.lines.derive_others(alloc, place, sink),
            BlockKind::Narrows => self.lines.derive_narrow(alloc, place, sink),
        }
    }

    ghost takes = { λ p next j. block_piece_ids p.kind p.lines next j };
}

// The lines of one kind.
fn part_of(lines: &BlockLines, kind: BlockKind) -> BlockPart
    ensures { result ≡ record { lines = lines.now; kind = kind } }
{
    BlockPart {
        lines: *lines,
        kind,
    }
}

// All kinds, in their order.
fn block_parts(lines: &BlockLines) -> [BlockPart; 6]
    ensures { result ≡ block_parts lines.now }
{
    [
        part_of(lines, BlockKind::Fronts),
        part_of(lines, BlockKind::Tails),
        part_of(lines, BlockKind::Heads),
        part_of(lines, BlockKind::Backs),
        part_of(lines, BlockKind::Others),
        part_of(lines, BlockKind::Narrows),
    ]
}

// Hands over all lines, of which the first has the given id.
fn derive_all<T: StepSink>(alloc: Global, lines: &BlockLines, sink: &mut T) -> SinkResult
    requires few { (T.state sink.old).next + block_size lines.now.lines.row.last < 2 ^ 62 }
    ensures hands { HandsSteps (block_lines lines.now.lines.row.first lines.now.lines.row.id lines.now.lines.row.inputs lines.now.lines.row.last lines.now.lines.next) result (T.state sink.old) (T.state sink.new) }
    ensures next { IfOk result (λ _. (T.state sink.new).next ≡ (T.state sink.old).next + block_size lines.now.lines.row.last) }
{
    derive_parts(alloc, &block_parts(lines), sink)
}

/// Hands over all lines about the blocks of a row.
pub fn derive_block_lines<T: StepSink>(alloc: Global, row: FreshRow, sink: &mut T) -> SinkResult
    requires few { (T.state sink.old).next + block_size row.last < 2 ^ 62 }
    ensures hands { HandsFrom (block_lines row.first row.id row.inputs row.last) result (T.state sink.old) (T.state sink.new) }
    ensures next { IfOk result (λ _. (T.state sink.new).next ≡ (T.state sink.old).next + block_size row.last) }
{
    let next = sink.next_id();
    let lines = BlockLines {
        lines: RowLines { row, next },
    };
    derive_all(alloc, &lines, sink)
}
