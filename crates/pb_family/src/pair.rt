//! Pairs: clauses that stand for two bounded sums at once.
ghost use Rattle.std.specs.Prelude.{◌≡◌, ◌≢◌, ◌≤◌, ◌<◌, ◌+◌, ◌*◌, ◌^◌, ℕ, List, length, Err};
ghost use Rattle.pb_base.specs.declared.literal.Lit.{Lit};
ghost use Rattle.pb_base.specs.Literals.{Assignment, IsModel};
ghost use Rattle.pb_norm.specs.BoundedSums.{BoundedSum, StaysWithin};
ghost use Rattle.pb_norm.specs.ClausePropagation.{ClausesPropagate};
ghost use Rattle.pb_steps.specs.declared.step.Step.{Step};
ghost use Rattle.pb_family.specs.DeriveLaws.{AreSayableForBoth, AreShortForBoth, DeriveBoth};
ghost use Rattle.pb_family.specs.Families.{ExtendsToModel, NamesOnly, VarsBelow};
ghost use Rattle.pb_family.specs.Handing.{HandsIfMemory};
ghost use Rattle.pb_family.specs.Pairs.{StayWithinBoth};
ghost use Rattle.pb_family.specs.StepSinks.{HandsSteps};
ghost use Rattle.pb_family.specs.declared.sink.SinkFault.TheVariants as fault;

use crate::sink::{ClauseSink, SinkResult};
use crate::step_sink::StepSink;
use std::alloc::Global;

/// Clauses over the variables of two bounded sums and fresh ones, which say that both sums stay within their bounds.
pub trait Pair {
    /// The two sums, over the same variables: so many of some literals at most, and so many at least.
    ghost most: { Self → BoundedSum };

    ghost least: { Self → BoundedSum };

    /// How many fresh variables it has.
    ghost fresh_count: { Self → ℕ };

    /// How many clauses it has.
    ghost clause_count: { Self → ℕ };

    /// Its clauses, where the fresh variables are numbered from a number on.
    ghost clause_list: { Self → ℕ → List (List Lit) };

    /// The steps of their derivation, where the fresh variables are numbered from the first number on, the second is the id of
    /// the constraint from below, the third of the one from above, and the fourth is the next id.
    ghost step_list: { Self → ℕ → ℕ → ℕ → ℕ → List Step };

    /// Whether handing over the clauses takes no memory.
    ghost TakesNoMemory: { Self → Type 0 } = { λ _. ⊥ };

    /// How many fresh variables it has.
    fn fresh(&self) -> u64
        // The answer is the number of fresh variables.
        ensures { result ≡ fresh_count self.now };

    /// How many clauses it has.
    fn clauses(&self) -> u64
        // The answer is the number of clauses.
        ensures { result ≡ clause_count self.now };

    /// Hands over the clauses, in order. The fresh variables are numbered from `first` on.
    fn emit<S: ClauseSink>(&self, alloc: Global, first: u32, sink: &mut S) -> SinkResult
        requires original { VarsBelow first (most self.now).terms }
        requires low { 1 ≤ first }
        requires fits { first + fresh_count self.now ≤ 2 ^ 31 }
        // Exactly the pair's clauses were emitted, in order, or a first part of their text until the sink failed or memory ran out.
        ensures hands { HandsIfMemory (clause_list self.now first) result (S.state sink.old) (S.state sink.new) }
        // A pair with `TakesNoMemory` never answers `NoMemory`.
        ensures never { TakesNoMemory self.now → result ≢ Err fault.NoMemory };

    /// Hands over the steps, in order. The fresh variables are numbered from `first` on, `lower` is the id of the constraint
    /// from below, and `upper` of the one from above.
    fn derive<T: StepSink>(
        &self,
        alloc: Global,
        first: u32,
        lower: u64,
        upper: u64,
        sink: &mut T,
    ) -> SinkResult
        requires original { VarsBelow first (most self.now).terms }
        requires low { 1 ≤ first }
        requires fits { first + fresh_count self.now ≤ 2 ^ 31 }
        requires lower_given { 1 ≤ lower }
        requires lower_known { lower < (T.state sink.old).next }
        requires upper_given { 1 ≤ upper }
        requires upper_known { upper < (T.state sink.old).next }
        requires few { (T.state sink.old).next ≤ 2 ^ 61 }
        // Exactly the pair's steps were emitted, in order, or the first ones until the sink failed or memory ran out.
        ensures { HandsSteps (step_list self.now first lower upper (T.state sink.old).next) result (T.state sink.old) (T.state sink.new) };

    /// Under a model of the clauses both sums are within their bounds.
    ghost sound: { (f : Self) (first : ℕ) → VarsBelow first (most f).terms → (a : Assignment) → IsModel a (clause_list f first) → StayWithinBoth (most f) (least f) a };

    /// An assignment under which both sums are within their bounds extends over the fresh variables to a model.
    ghost extends: { (f : Self) (first : ℕ) → VarsBelow first (most f).terms → (a : Assignment) → StayWithinBoth (most f) (least f) a → ExtendsToModel first a (clause_list f first) };

    /// The clauses are as many as the pair's number says.
    ghost counts: { (f : Self) (first : ℕ) → length (clause_list f first) ≡ clause_count f };

    /// Each literal is of a variable of the sums or of a fresh one.
    ghost names: { (f : Self) (first : ℕ) → NamesOnly (most f).terms first (fresh_count f) (clause_list f first) };

    /// Propagation over the clauses reaches each literal that the upper bound forces under given ones, or a conflict.
    ghost propagates_most: { (f : Self) (first : ℕ) → VarsBelow first (most f).terms → ClausesPropagate (clause_list f first) (λ a. StaysWithin a (most f)) };

    /// Propagation over the clauses reaches each literal that the lower bound forces under given ones, or a conflict.
    ghost propagates_least: { (f : Self) (first : ℕ) → VarsBelow first (most f).terms → ClausesPropagate (clause_list f first) (λ a. StaysWithin a (least f)) };

    /// Propagation over the clauses reaches each literal that both bounds together force under given ones, or a conflict.
    ghost propagates: { (f : Self) (first : ℕ) → VarsBelow first (most f).terms → ClausesPropagate (clause_list f first) (StayWithinBoth (most f) (least f)) };

    /// From a database that is ready for both sums the steps are allowed in turn and put out the clauses in order. Ready means: both are
    /// live under the ids, ids are below the next one, and the fresh variables are the database's, not original, and in no constraint.
    ghost derives: { (f : Self) → DeriveBoth (most f) (least f) (fresh_count f) (clause_list f) (step_list f) };

    /// The steps are at most 8 * (fresh + clauses).
    ghost few_steps: { (f : Self) (first lower upper next : ℕ) → length (step_list f first lower upper next) ≤ 8 * (fresh_count f + clause_count f) };

    /// If the next id is at most 2^61 a line can say each step.
    ghost sayable: { (f : Self) → AreSayableForBoth (most f) (fresh_count f) (step_list f) };

    /// For sums of n terms, at most 2^21, each line has at most 2^28 bytes, and all have at most 512 * (fresh + 1) * n + 2^20 * (fresh +
    /// clauses + 3).
    ghost short: { (f : Self) → AreShortForBoth (most f) (fresh_count f) (clause_count f) (step_list f) };
}
