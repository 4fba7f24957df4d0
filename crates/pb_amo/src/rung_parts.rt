//! The steps of a ladder, kind by kind.
ghost use Rattle.std.specs.Prelude.{◌≡◌, ◌<◌, ◌+◌, ◌*◌, ◌^◌, length};
ghost use Rattle.pb_norm.specs.Constraints.{weights};
ghost use Rattle.pb_family.specs.StepSinks.{HandsFrom};
ghost use Rattle.pb_amo.specs.LadderSteps.{ladder_steps};

use crate::rung_steps::RungSteps;
use pb_family::{NumberedClauses, Pieces, SinkResult, StepSink, derive_deletions, derive_parts};
use std::alloc::Global;

/// The steps that say the same of one place after another.
#[derive(Clone, Copy)]
pub enum RungKind {
    Meanings,
    Fronts,
    Clauses,
}

/// Those of one kind.
#[derive(Clone, Copy)]
pub struct RungPart<'a> {
    pub steps: RungSteps<'a>,
    pub kind: RungKind,
}

impl Pieces for RungPart<'_> {
    ghost use Rattle.pb_amo.specs.inner.RungPieces.{rung_count, rung_piece, rung_piece_ids, rung_width};

    ghost piece_count = { λ p. rung_count p.kind p.steps };

    ghost piece_ids = { λ p. rung_width p.kind };

    ghost piece = { λ p. rung_piece p.kind p.steps };

    fn count(&self) -> usize {
        let rungs = self.steps.rungs;
        match self.kind {
            RungKind::Clauses => rungs.clauses(),
            _ => rungs.terms.len() - 1,
        }
    }

    fn derive_one<T: StepSink>(&self, alloc: Global, number: usize, sink: &mut T) -> SinkResult {
        match self.kind {
            RungKind::Meanings => self.steps.derive_rung(alloc, number, sink),
            RungKind::Fronts => self.steps.derive_front(alloc, number, sink),
            RungKind::Clauses => self.steps.derive_clause(alloc, number, sink),
        }
    }

    ghost takes = { λ p next k. rung_piece_ids p.kind p.steps next k };
}

/// Hands over the whole derivation.
pub fn derive_ladder<T: StepSink>(alloc: Global, steps: RungSteps, sink: &mut T) -> SinkResult
    requires base { steps.base ≡ (T.state sink.old).next }
    requires room { (T.state sink.old).next + 8 * length steps.rungs.terms.now < 2 ^ 62 }
    ensures { HandsFrom (ladder_steps (weights steps.entry.rungs.terms.now) steps.entry.rungs.first steps.entry.id) result (T.state sink.old) (T.state sink.new) }
{
    let meanings = RungPart {
        steps,
        kind: RungKind::Meanings,
    };
    let fronts = RungPart {
        steps,
        kind: RungKind::Fronts,
    };
    let clauses = RungPart {
        steps,
        kind: RungKind::Clauses,
    };
    derive_parts(alloc, &[meanings, fronts, clauses], sink)?;
    let count = steps.rungs.terms.len() as u64 - 1;
    derive_deletions(alloc, steps.base, 3, count, sink)
}
