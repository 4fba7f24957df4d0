//! The lines about a row of fresh variables, kind by kind.
ghost use Rattle.std.specs.Prelude.{◌≡◌, ◌<◌, ◌+◌, ◌^◌, IfOk};
ghost use Rattle.pb_family.specs.StepSinks.{HandsFrom, HandsSteps};
ghost use Rattle.pb_totalizer.specs.OutputRows.{row_lines, row_size};
ghost use Rattle.pb_totalizer.specs.inner.RowParts.{row_parts};

use crate::fresh_row::{FreshRow, RowLines};
use pb_family::{Pieces, SinkResult, StepSink, derive_parts};
use std::alloc::Global;

/// The lines that say the same of one variable after another: of those before it, of those behind it, or of all others.
#[derive(Clone, Copy)]
pub enum RowKind {
    Fronts,
    Tails,
    Others,
}

/// Those of one kind.
#[derive(Clone, Copy)]
pub struct RowPart {
    pub lines: RowLines,
    pub kind: RowKind,
}

impl Pieces for RowPart {
    ghost use Rattle.pb_totalizer.specs.inner.RowPieces.{row_count, row_piece};
    ghost use Rattle.pb_totalizer.specs.laws.PieceIds.{row_piece_ids};

    ghost piece_count = { λ p. row_count p.kind p.lines.row.last };

    ghost piece_ids = { λ p. 1 };

    ghost piece = { λ p. row_piece p.kind p.lines };

    fn count(&self) -> usize {
        let last = self.lines.row.last as usize;
        match self.kind {
            RowKind::Tails => 2 + last,
            _ => 1 + last,
        }
    }

    fn derive_one<T: StepSink>(&self, alloc: Global, number: usize, sink: &mut T) -> SinkResult {
        let place = number as u64;
        match self.kind {
            RowKind::Fronts => self.lines.derive_front(alloc, place, sink),
            RowKind::Tails => self.lines.derive_tail(alloc, place, sink),
            RowKind::Others => self.lines.derive_others(alloc, place, sink),
        }
    }

    ghost takes = { λ p next j. row_piece_ids p.kind p.lines next j };
}

// The lines of one kind.
fn part_of(lines: &RowLines, kind: RowKind) -> RowPart
    ensures { result ≡ record { lines = lines.now; kind = kind } }
{
    RowPart {
        lines: *lines,
        kind,
    }
}

// All kinds, in their order.
fn row_parts(lines: &RowLines) -> [RowPart; 3]
    ensures { result ≡ row_parts lines.now }
{
    [
        part_of(lines, RowKind::Fronts),
        part_of(lines, RowKind::Tails),
        part_of(lines, RowKind::Others),
    ]
}

// Hands over all lines, of which the first has the given id.
fn derive_all<T: StepSink>(alloc: Global, lines: &RowLines, sink: &mut T) -> SinkResult
    requires few { (T.state sink.old).next + row_size lines.now.row.last < 2 ^ 62 }
    ensures hands { HandsSteps (row_lines lines.now.row.first lines.now.row.id lines.now.row.inputs lines.now.row.last lines.now.next) result (T.state sink.old) (T.state sink.new) }
    ensures next { IfOk result (λ _. (T.state sink.new).next ≡ (T.state sink.old).next + row_size lines.now.row.last) }
{
    derive_parts(alloc, &row_parts(lines), sink)
}

/// Hands over all lines about a row.
pub fn derive_row<T: StepSink>(alloc: Global, row: FreshRow, sink: &mut T) -> SinkResult
    requires few { (T.state sink.old).next + row_size row.last < 2 ^ 62 }
    ensures hands { HandsFrom (row_lines row.first row.id row.inputs row.last) result (T.state sink.old) (T.state sink.new) }
    ensures next { IfOk result (λ _. (T.state sink.new).next ≡ (T.state sink.old).next + row_size row.last) }
{
    let next = sink.next_id();
    let lines = RowLines { row, next };
    derive_all(alloc, &lines, sink)
}
