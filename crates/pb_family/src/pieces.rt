//! Steps that are given piece by piece.
ghost use Rattle.std.specs.Prelude.{◌≡◌, ◌<◌, ◌+◌, ◌*◌, ◌^◌, ℕ, List, count_by, IfOk};
ghost use Rattle.pb_steps.specs.declared.step.Step.{Step};
ghost use Rattle.pb_steps.specs.Steps.{takes_id};
ghost use Rattle.pb_family.specs.Derivations.{ids_in_turn, in_turn, pieces};
ghost use Rattle.pb_family.specs.StepSinks.{HandsFrom, HandsSteps};

use crate::sink::SinkResult;
use crate::step_sink::StepSink;
use std::alloc::Global;

/// Pieces of a derivation that are given by their numbers, from 0 on, each of which takes as many ids.
pub trait Pieces {
    /// How many pieces there are.
    ghost piece_count: { Self → ℕ };

    /// How many ids each takes.
    ghost piece_ids: { Self → ℕ };

    /// The steps of a piece, by the next id and its number.
    ghost piece: { Self → ℕ → ℕ → List Step };

    /// How many pieces there are.
    fn count(&self) -> usize
        ensures { result ≡ piece_count self.now };

    /// Hands over the piece with a number.
    fn derive_one<T: StepSink>(&self, alloc: Global, number: usize, sink: &mut T) -> SinkResult
        requires within { number < piece_count self.now }
        requires few { (T.state sink.old).next + piece_ids self.now < 2 ^ 62 }
        ensures { HandsSteps (piece self.now (T.state sink.old).next number) result (T.state sink.old) (T.state sink.new) };

    /// Each takes so many ids.
    ghost takes: { (p : Self) (next number : ℕ) → count_by takes_id (piece p next number) ≡ piece_ids p };
}

/// Hands over all pieces, in the order of their numbers.
pub fn derive_pieces<P: Pieces, T: StepSink>(alloc: Global, of: &P, sink: &mut T) -> SinkResult
    requires few { (T.state sink.old).next + P.piece_ids of.now * P.piece_count of.now < 2 ^ 62 }
    // All pieces were emitted, in the order of their numbers, or the first ones until the sink failed or memory ran out.
    ensures { HandsFrom (λ next. pieces (P.piece of.now) (P.piece_ids of.now) next 0 (P.piece_count of.now)) result (T.state sink.old) (T.state sink.new) }
{
    for number in 0..of.count() {
        of.derive_one(alloc, number, sink)?;
    }
    Ok(())
}

/// Hands over parts, each with all its pieces, one behind another.
pub fn derive_parts<P: Pieces, T: StepSink>(alloc: Global, parts: &[P], sink: &mut T) -> SinkResult
    requires few { (T.state sink.old).next + ids_in_turn P.piece_count P.piece_ids parts.now < 2 ^ 62 }
    // The pieces of all parts were emitted, part by part, or the first ones until the sink failed or memory ran out.
    ensures hands { HandsFrom (λ next. in_turn P.piece_count P.piece_ids P.piece next parts.now) result (T.state sink.old) (T.state sink.new) }
    // On success the next id is higher by the ids that all pieces take.
    ensures next { IfOk result (λ _. (T.state sink.new).next ≡ (T.state sink.old).next + ids_in_turn P.piece_count P.piece_ids parts.now) }
{
    for part in parts {
        derive_pieces(alloc, part, sink)?;
    }
    Ok(())
}
