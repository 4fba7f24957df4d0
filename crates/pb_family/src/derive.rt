//! Families that derive their clauses.
ghost use Rattle.std.specs.Prelude.{◌≤◌, ◌<◌, ◌+◌, ◌*◌, ◌^◌, ℕ, List, All, length};
ghost use Rattle.pb_steps.specs.declared.step.Step.{Step};
ghost use Rattle.pb_steps.specs.Sayable.{IsSayable};
ghost use Rattle.pb_family.specs.Derivations.{AreOriginal, MayStart};
ghost use Rattle.pb_family.specs.DeriveLaws.{AreShortSteps, DeriveSum};
ghost use Rattle.pb_family.specs.Families.{VarsBelow};
ghost use Rattle.pb_family.specs.StepSinks.{HandsSteps};

use crate::family::Family;
use crate::sink::SinkResult;
use crate::step_sink::StepSink;
use std::alloc::Global;

/// Families that derive their clauses from the constraint which they stand for.
pub trait Derive: Family {
    /// The steps, where the fresh variables are numbered from the first number on, the second is the id of the constraint, and
    /// the third is the next id.
    ghost step_list: { Self → ℕ → ℕ → ℕ → List Step };

    /// Hands over the steps, in order. The fresh variables are numbered from `first` on, and `id` is the constraint's.
    fn derive<T: StepSink>(&self, alloc: Global, first: u32, id: u64, sink: &mut T) -> SinkResult
        requires original { VarsBelow first (Self.constraint self.now).terms }
        requires low { 1 ≤ first }
        requires fits { first + Self.fresh_count self.now ≤ 2 ^ 31 }
        requires given { 1 ≤ id }
        requires known { id < (T.state sink.old).next }
        requires few { (T.state sink.old).next ≤ 2 ^ 61 }
        // Exactly the family's steps were emitted, in order, as their lines, or the first ones until the sink failed or memory ran out.
        ensures { HandsSteps (step_list self.now first id (T.state sink.old).next) result (T.state sink.old) (T.state sink.new) };

    /// From a database that is ready for the sum the steps are allowed in turn and put out the clauses in order. What was live stays
    /// live, and besides only constraints remain that were put out. Ready means: the sum is live under the id, ids are below the next
    /// one, and the fresh variables are the database's, not original, and in no constraint.
    ghost derives: { (f : Self) → DeriveSum (Self.constraint f) (Self.fresh_count f) (Self.clause_list f) (step_list f) };

    /// The steps are at most 8 * (fresh + clauses).
    ghost few_steps: { (f : Self) (first id next : ℕ) → length (step_list f first id next) ≤ 8 * (Self.fresh_count f + Self.clause_count f) };

    /// If the next id is at most 2^61 a line can say each step: its numbers are below 2^126, ids below 2^63, variables below 2^31.
    ghost sayable: { (f : Self) (first id next : ℕ) → AreOriginal first (Self.constraint f).terms → MayStart first (Self.fresh_count f) id next → All IsSayable (step_list f first id next) };

    /// For a sum of n terms, at most 2^21, each line has at most 2^28 bytes, and all have at most 512 * (fresh + 1) * n + 2^20 * (fresh +
    /// clauses + 3).
    ghost short: { (f : Self) → AreShortSteps (Self.constraint f) (Self.fresh_count f) (Self.clause_count f) (step_list f) };
}
