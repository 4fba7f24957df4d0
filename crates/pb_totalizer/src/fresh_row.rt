//! Fresh variables in a row that count in unary, and the lines about them.
ghost use Rattle.std.specs.Prelude.{◌≤◌, ◌<◌, ◌+◌, ◌*◌, ◌^◌};

use pb_base::Lit;
use pb_family::{SinkResult, StepSink, derive_line, fresh_at, over, times};
use pb_steps::PolOp;
use std::alloc::Global;

/// Fresh variables in a row, each of which is reified over the same literals: the first one, the id of its first constraint, over
/// how many literals, and the last place.
#[derive(Clone, Copy)]
pub struct FreshRow {
    pub first: u32,
    pub id: u64,
    pub inputs: u64,
    pub last: u64,
    ghost low: { 1 ≤ first },
    ghost high: { first + (1 + last) ≤ 2 ^ 31 },
    ghost room: { id + 2 * last + 1 < 2 ^ 62 },
}

impl FreshRow {
    ghost use Rattle.std.specs.Prelude.{◌≡◌, ◌≤◌};
    ghost use Rattle.pb_family.specs.Fresh.{positive_of};

    /// The variable at a place.
    pub fn bit(&self, place: u64) -> Lit
        requires { place ≤ self.now.last }
        ensures { result ≡ positive_of (self.now.first + place) }
    {
        fresh_at(self.first, place as usize)
    }
}

/// A row, and the id of the first line about it.
#[derive(Clone, Copy)]
pub struct RowLines {
    pub row: FreshRow,
    pub next: u64,
    ghost room: { next + 3 * row.last + 4 < 2 ^ 62 },
}

impl RowLines {
    ghost use Rattle.std.specs.Prelude.{◌≡◌, ◌≤◌, ◌<◌, ◌+◌, ◌^◌, [], ◌∷◌};
    ghost use Rattle.pb_family.specs.StepSinks.{HandsSteps};
    ghost use Rattle.pb_totalizer.specs.OutputRows.{nothing_line, others_line};
    ghost use Rattle.pb_totalizer.specs.inner.RowPieces.{front_piece, tail_piece, tails_of};

    /// Hands over a line that says nothing.
    pub fn derive_nothing<T: StepSink>(&self, alloc: Global, sink: &mut T) -> SinkResult
        requires few { (T.state sink.old).next < 2 ^ 62 }
        ensures { HandsSteps (nothing_line self.now.row.first ∷ []) result (T.state sink.old) (T.state sink.new) }
    {
        let lit = self.row.bit(0);
        let var = lit.var;
        derive_line(alloc, &[PolOp::Axiom(lit), PolOp::Weaken(var)], sink)
    }

    /// Hands over that where the variable at a place is true, all before it are.
    pub fn derive_front<T: StepSink>(&self, alloc: Global, place: u64, sink: &mut T) -> SinkResult
        requires within { place ≤ self.now.row.last }
        requires few { (T.state sink.old).next < 2 ^ 62 }
        ensures { HandsSteps (front_piece self.now place ∷ []) result (T.state sink.old) (T.state sink.new) }
    {
        if place == 0 {
            return self.derive_nothing(alloc, sink);
        }
        let before = place - 1;
        let ops = [
            PolOp::Push(self.next + before),
            PolOp::Push(self.row.id + 2 * (1 + before)),
            PolOp::Push(self.row.id + 2 * before + 1),
            PolOp::Add,
            over(self.row.inputs),
            times(1 + before),
            PolOp::Add,
        ];
        derive_line(alloc, &ops, sink)
    }

    /// The id of the first line about the last variables.
    pub fn tails(&self) -> u64
        ensures { result ≡ tails_of self.now }
    {
        self.next + (1 + self.row.last)
    }

    /// Hands over that the last `number` variables are at least 0.
    pub fn derive_tail<T: StepSink>(&self, alloc: Global, number: u64, sink: &mut T) -> SinkResult
        requires within { number ≤ self.now.row.last + 1 }
        requires few { (T.state sink.old).next < 2 ^ 62 }
        ensures { HandsSteps (tail_piece self.now number ∷ []) result (T.state sink.old) (T.state sink.new) }
    {
        if number == 0 {
            return self.derive_nothing(alloc, sink);
        }
        let before = number - 1;
        let ops = [
            PolOp::Push(self.tails() + before),
            PolOp::Axiom(self.row.bit(self.row.last - before)),
            PolOp::Add,
        ];
        derive_line(alloc, &ops, sink)
    }

    /// Hands over what is said of all variables but the one at a place.
    pub fn derive_others<T: StepSink>(&self, alloc: Global, place: u64, sink: &mut T) -> SinkResult
        requires within { place ≤ self.now.row.last }
        requires few { (T.state sink.old).next < 2 ^ 62 }
        ensures { HandsSteps (others_line self.now.row.last self.now.next (tails_of self.now) place ∷ []) result (T.state sink.old) (T.state sink.new) }
    {
        let ops = [
            PolOp::Push(self.next + place),
            PolOp::Push(self.tails() + (self.row.last - place)),
            PolOp::Add,
        ];
        derive_line(alloc, &ops, sink)
    }
}
