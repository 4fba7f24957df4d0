//! The steps of a row of a counter, kind by kind.
ghost use Rattle.std.specs.Prelude.{◌≡◌, ◌<◌, ◌+◌, ◌*◌, ◌^◌, IfOk};
ghost use Rattle.pb_family.specs.StepSinks.{HandsFrom};
ghost use Rattle.pb_counter.specs.CounterRows.{row_steps};
ghost use Rattle.pb_counter.specs.inner.RowPieces.{row_ids};
ghost use Rattle.pb_counter.specs.inner.RowParts.{row_parts};

use crate::row::{Row, RowIds};
use pb_family::{Pieces, SinkResult, StepSink, derive_parts};
use std::alloc::Global;

/// The ids of a row's lines, of which the first is `next`.
pub fn row_ids(last: u64, next: u64) -> RowIds
    requires { next + 8 * last + 8 < 2 ^ 63 }
    ensures { result ≡ row_ids last next }
{
    let falls = next + 2 * (1 + last);
    let parts = falls + last;
    let mores = parts + (1 + last);
    let keeps = mores + (1 + last);
    let stop = keeps + (1 + last);
    let order = stop + 1;
    let fronts = order + last;
    RowIds {
        counts: next,
        falls,
        parts,
        mores,
        keeps,
        stop,
        order,
        fronts,
    }
}

/// The steps of a row that say the same of one place after another.
#[derive(Clone, Copy)]
pub enum RowKind {
    Counts,
    Falls,
    Parts,
    Mores,
    Keeps,
    Stop,
    Orders,
    Fronts,
    Clauses,
    StopClause,
    Deleted,
}

/// Those of one kind.
#[derive(Clone, Copy)]
pub struct RowPart {
    pub row: Row,
    pub kind: RowKind,
}

impl Pieces for RowPart {
    ghost use Rattle.pb_counter.specs.inner.RowPieces.{row_count, row_piece, row_width};
    ghost use Rattle.pb_counter.specs.laws.RowPieceIds.{row_piece_ids};

    ghost piece_count = { λ p. row_count p.kind p.row.last };

    ghost piece_ids = { λ p. row_width p.kind };

    ghost piece = { λ p. row_piece p.kind p.row };

    fn count(&self) -> usize {
        let last = self.row.last as usize;
        match self.kind {
            RowKind::Falls | RowKind::Orders => last,
            RowKind::Stop | RowKind::StopClause | RowKind::Deleted => 1,
            _ => 1 + last,
        }
    }

    fn derive_one<T: StepSink>(&self, alloc: Global, number: usize, sink: &mut T) -> SinkResult {
        let place = number as u64;
        match self.kind {
            RowKind::Counts => self.row.derive_count(alloc, place, sink),
            RowKind::Falls => self.row.derive_fall(alloc, place, sink),
            RowKind::Parts => self.row.derive_part(alloc, place, sink),
            RowKind::Mores => self.row.derive_more(alloc, place, sink),
            RowKind::Keeps => self.row.derive_keep(alloc, place, sink),
            RowKind::Stop => self.row.derive_stop(alloc, sink),
            RowKind::Orders => self.row.derive_order(alloc, place, sink),
            RowKind::Fronts => self.row.derive_own_front(alloc, place, sink),
            RowKind::Clauses => self.row.put_out(place, sink),
            RowKind::StopClause => self.row.put_out_stop(sink),
            RowKind::Deleted => self.row.derive_row_deleted(alloc, sink),
        }
    }

    ghost takes = { λ p next j. row_piece_ids p.kind p.row next j };
}

// The steps of one kind.
fn part_of(row: &Row, kind: RowKind) -> RowPart
    ensures { result ≡ record { row = row.now; kind = kind } }
{
    RowPart { row: *row, kind }
}

// All kinds of steps of a row, in their order.
fn row_parts(row: &Row) -> [RowPart; 11]
    ensures { result ≡ row_parts row.now }
{
    [
        part_of(row, RowKind::Counts),
        part_of(row, RowKind::Falls),
        part_of(row, RowKind::Parts),
        part_of(row, RowKind::Mores),
        part_of(row, RowKind::Keeps),
        part_of(row, RowKind::Stop),
        part_of(row, RowKind::Orders),
        part_of(row, RowKind::Fronts),
        part_of(row, RowKind::Clauses),
        part_of(row, RowKind::StopClause),
        part_of(row, RowKind::Deleted),
    ]
}

/// Hands over a row.
pub fn derive_row<T: StepSink>(alloc: Global, row: Row, sink: &mut T) -> SinkResult
    requires ids { row.ids ≡ row_ids row.last (T.state sink.old).next }
    requires fronts { row.fronts ≡ row.order + row.last }
    requires few { (T.state sink.old).next + 8 * row.last + 8 < 2 ^ 62 }
    ensures hands { HandsFrom (row_steps row.lit row.first row.last row.order row.whole) result (T.state sink.old) (T.state sink.new) }
    ensures next { IfOk result (λ _. (T.state sink.new).next ≡ (T.state sink.old).next + (8 * row.last + 7)) }
{
    derive_parts(alloc, &row_parts(&row), sink)
}
