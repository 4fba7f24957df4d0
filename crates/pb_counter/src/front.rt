//! What is said of a row by its order.
ghost use Rattle.std.specs.Prelude.{◌≡◌, ◌<◌, ◌≤◌, ◌+◌, ◌^◌, [], ◌∷◌};
ghost use Rattle.pb_family.specs.StepSinks.{HandsSteps};
ghost use Rattle.pb_counter.specs.inner.PlacePieces.{front_piece};

use pb_base::{Lit, Var};
use pb_family::{SinkResult, StepSink, derive_line, times};
use pb_steps::PolOp;
use std::alloc::Global;

/// Hands over that where a place of a row is reached, all before it are, by its order; of the first place that says nothing.
pub fn derive_front<T: StepSink>(
    alloc: Global,
    first: u32,
    order: u64,
    fronts: u64,
    place: u64,
    sink: &mut T,
) -> SinkResult
    requires low { 1 ≤ first }
    requires high { first < 2 ^ 31 }
    requires order { order + place < 2 ^ 63 }
    requires fronts { fronts + place < 2 ^ 63 }
    requires few { (T.state sink.old).next < 2 ^ 62 }
    ensures { HandsSteps (front_piece first order fronts place ∷ []) result (T.state sink.old) (T.state sink.new) }
{
    if place == 0 {
        let var = Var::new(first);
        let lit = Lit {
            var,
            positive: true,
        };
        return derive_line(alloc, &[PolOp::Axiom(lit), PolOp::Weaken(var)], sink);
    }
    let before = place - 1;
    let ops = [
        PolOp::Push(fronts + before),
        PolOp::Push(order + before),
        times(1 + before),
        PolOp::Add,
    ];
    derive_line(alloc, &ops, sink)
}
