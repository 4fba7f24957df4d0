//! The steps of the first row of a counter, kind by kind.
ghost use Rattle.std.specs.Prelude.{◌≡◌, ◌<◌, ◌+◌, ◌*◌, ◌^◌, IfOk};
ghost use Rattle.pb_family.specs.StepSinks.{HandsFrom};
ghost use Rattle.pb_counter.specs.CounterHalves.{first_at, first_fronts_at, first_order_at, first_steps};
ghost use Rattle.pb_counter.specs.inner.FirstParts.{first_parts};

use crate::first_row::FirstRow;
use pb_family::{Pieces, SinkResult, StepSink, derive_parts};
use std::alloc::Global;

/// The steps of the first row that say the same of one place after another.
#[derive(Clone, Copy)]
pub enum FirstKind {
    Counts,
    Starts,
    Orders,
    Fronts,
    Total,
    Clauses,
    Deleted,
}

/// Those of one kind.
#[derive(Clone, Copy)]
pub struct FirstPart {
    pub row: FirstRow,
    pub kind: FirstKind,
}

impl Pieces for FirstPart {
    ghost use Rattle.pb_counter.specs.inner.FirstPieces.{first_kinds, first_piece, first_width};
    ghost use Rattle.pb_counter.specs.laws.RowPieceIds.{first_piece_ids};

    ghost piece_count = { λ p. first_kinds p.kind p.row.last };

    ghost piece_ids = { λ p. first_width p.kind };

    ghost piece = { λ p. first_piece p.kind p.row };

    fn count(&self) -> usize {
        let last = self.row.last as usize;
        match self.kind {
            FirstKind::Orders => last,
            FirstKind::Total | FirstKind::Deleted => 1,
            _ => 1 + last,
        }
    }

    fn derive_one<T: StepSink>(&self, alloc: Global, number: usize, sink: &mut T) -> SinkResult {
        let place = number as u64;
        match self.kind {
            FirstKind::Counts => self.row.derive_count(alloc, place, sink),
            FirstKind::Starts => self.row.derive_start(alloc, place, sink),
            FirstKind::Orders => self.row.derive_order(alloc, place, sink),
            FirstKind::Fronts => self.row.derive_own_front(alloc, place, sink),
            FirstKind::Total => self.row.derive_total(alloc, sink),
            FirstKind::Clauses => self.row.put_out(place, sink),
            FirstKind::Deleted => self.row.derive_deleted(alloc, sink),
        }
    }

    ghost takes = { λ p next j. first_piece_ids p.kind p.row next j };
}

// The steps of one kind.
fn part_of(row: &FirstRow, kind: FirstKind) -> FirstPart
    ensures { result ≡ record { row = row.now; kind = kind } }
{
    FirstPart { row: *row, kind }
}

// All kinds of steps of the first row, in their order.
fn first_parts(row: &FirstRow) -> [FirstPart; 7]
    ensures { result ≡ first_parts row.now }
{
    [
        part_of(row, FirstKind::Counts),
        part_of(row, FirstKind::Starts),
        part_of(row, FirstKind::Orders),
        part_of(row, FirstKind::Fronts),
        part_of(row, FirstKind::Total),
        part_of(row, FirstKind::Clauses),
        part_of(row, FirstKind::Deleted),
    ]
}

/// Hands over the first row.
pub fn derive_first_row<T: StepSink>(alloc: Global, row: FirstRow, sink: &mut T) -> SinkResult
    requires counts { row.counts ≡ (T.state sink.old).next }
    requires starts { row.starts ≡ first_at row.last (T.state sink.old).next }
    requires order { row.order ≡ first_order_at row.last (T.state sink.old).next }
    requires fronts { row.fronts ≡ first_fronts_at row.last (T.state sink.old).next }
    requires few { (T.state sink.old).next + 8 * row.last + 8 < 2 ^ 62 }
    ensures hands { HandsFrom (first_steps row.lit row.first row.last row.id) result (T.state sink.old) (T.state sink.new) }
    ensures next { IfOk result (λ _. (T.state sink.new).next ≡ (T.state sink.old).next + (5 * row.last + 5)) }
{
    derive_parts(alloc, &first_parts(&row), sink)
}
