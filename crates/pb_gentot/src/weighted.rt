//! A bounded sum with any coefficients, by a generalized totalizer.
//!
//! `build` measures every node, to count and to stop at the budget, and stores no values: they would take 16 bytes for each fresh
//! variable while the plan lives, and measuring holds those of one path of the tree. So the values are made again when the clauses
//! are emitted. That allocates in any case, for the table that finds a node's sums. So `Weighted::emit`, alone of the families, may
//! answer `NoMemory`.
ghost use Rattle.std.specs.Prelude.{◌≡◌, ◌<◌, ◌^◌};
ghost use Rattle.pb_norm.specs.Constraints.{weight, weights};
ghost use Rattle.pb_norm.specs.BoundedSums.{IsProper, sum_within};
ghost use Rattle.pb_gentot.specs.Generalized.{generalized_clauses, generalized_fresh, generalized_size};

use crate::derivation::Bounded;
use crate::measure::measure;
use crate::tree::emit_whole;
use crate::whole::Whole;
use pb_base::{NoMemory, Term};
use pb_family::{Built, ClauseSink, Derive, Family, SinkResult, StepSink, Strong};
use pb_norm::AtMost;
use pb_tree::derive_along;
use std::alloc::Global;

/// The generalized totalizer of a sum (Joshi, Martins and Manquinho 2015, in one direction): a tree of halves, each node of
/// which has an output for each sum that its true leaves can reach, where all past the bound are one.
#[derive(Drop)]
pub struct Weighted {
    terms: Vec<Term>,
    bound: u128,
    fresh: u64,
    clauses: u64,
    ghost proper: { IsProper (sum_within terms.items bound) },
    ghost small: { bound < 2 ^ 100 },
    ghost fresh_is: { fresh ≡ generalized_fresh (sum_within terms.items bound) },
    ghost clauses_is: { clauses ≡ generalized_size (sum_within terms.items bound) },
    ghost light: { weight (weights terms.items) < 2 ^ 100 },
    ghost modest: { clauses < 2 ^ 60 },
}

impl Weighted {
    ghost use Rattle.std.specs.Prelude.{◌≡◌, ◌<◌, ◌^◌, ℕ, IfOk};
    ghost use Rattle.pb_norm.specs.Constraints.{weight};
    ghost use Rattle.pb_family.specs.Budgets.{IsOverExactly, IfFits};

    /// The generalized totalizer of a sum, if it has no more fresh variables than the budget.
    pub fn build(alloc: Global, of: &AtMost, budget: u64) -> Result<Built<Weighted>, NoMemory>
        requires light { weight of.now.terms < 2 ^ 100 }
        requires modest { budget < 2 ^ 24 }
        // The budget is passed iff the fresh variables are more.
        ensures over { IfOk result (λ built. IsOverExactly (generalized_fresh of.now) budget built) }
        // The family is of this sum.
        ensures constraint { IfOk result (λ built. IfFits (λ t. ⟦<Weighted as Family>⟧.constraint t ≡ of.now) built) }
        // The number of fresh variables is the defined one.
        ensures fresh { IfOk result (λ built. IfFits (λ t. ⟦<Weighted as Family>⟧.fresh_count t ≡ generalized_fresh of.now) built) }
        // The number of clauses is the defined one.
        ensures clauses { IfOk result (λ built. IfFits (λ t. ⟦<Weighted as Family>⟧.clause_count t ≡ generalized_size of.now) built) }
        // The clauses are those of the generalized totalizer.
        ensures list { IfOk result (λ built. IfFits (λ t. (first : ℕ) → ⟦<Weighted as Family>⟧.clause_list t first ≡ generalized_clauses of.now first) built) }
    {
        let bound = of.bound();
        let part = match measure(alloc, of.terms(), bound, budget)? {
            Some(part) => part,
            None => return Ok(Built::Over),
        };
        let mut terms = Vec::new(alloc);
        terms.extend_from_slice(of.terms())?;
        Ok(Built::Fits(Weighted {
            terms,
            bound,
            fresh: part.fresh,
            clauses: part.clauses + 1,
        }))
    }
}

impl Family for Weighted {
    ghost use Rattle.pb_norm.specs.BoundedSums.{sum_within};
    ghost use Rattle.pb_gentot.specs.Generalized.{generalized_clauses, generalized_fresh, generalized_size};
    ghost use Rattle.pb_gentot.specs.laws.GeneralizedLaws.{generalized_sound, generalized_extends, generalized_counts, generalized_names};

    ghost constraint = { λ f. sum_within f.terms.items f.bound };

    ghost fresh_count = { λ f. generalized_fresh (sum_within f.terms.items f.bound) };

    ghost clause_count = { λ f. generalized_size (sum_within f.terms.items f.bound) };

    ghost clause_list = { λ f first. generalized_clauses (sum_within f.terms.items f.bound) first };

    fn fresh(&self) -> u64 {
        self.fresh
    }

    fn clauses(&self) -> u64 {
        self.clauses
    }

    fn emit<S: ClauseSink>(&self, alloc: Global, first: u32, sink: &mut S) -> SinkResult {
        let whole = Whole {
            terms: self.terms.as_slice(),
            bound: self.bound,
            first,
        };
        emit_whole(alloc, &whole, sink)
    }

    ghost sound = { λ f first below a model. generalized_sound (sum_within f.terms.items f.bound) f.proper first a model };

    ghost extends = { λ f first below a holds. generalized_extends (sum_within f.terms.items f.bound) f.proper first below a holds };

    ghost counts = { λ f first. generalized_counts (sum_within f.terms.items f.bound) first };

    ghost names = { λ f first. generalized_names (sum_within f.terms.items f.bound) f.proper first };
}

impl Strong for Weighted {
    ghost use Rattle.pb_norm.specs.BoundedSums.{sum_within};
    ghost use Rattle.pb_gentot.specs.laws.GeneralizedLaws.{generalized_propagates};

    ghost propagates = { λ f first below. generalized_propagates (sum_within f.terms.items f.bound) f.proper first };
}

impl Derive for Weighted {
    ghost use Rattle.pb_norm.specs.BoundedSums.{sum_within};
    ghost use Rattle.pb_gentot.specs.GeneralizedSteps.{generalized_steps};
    ghost use Rattle.pb_gentot.specs.laws.GeneralizedDerives.{generalized_derives, generalized_lines};
    ghost use Rattle.pb_gentot.specs.laws.GeneralizedShort.{generalized_sayable, generalized_short, size_fits};

    ghost step_list = { λ f. generalized_steps (sum_within f.terms.items f.bound) };

    fn derive<T: StepSink>(&self, alloc: Global, first: u32, id: u64, sink: &mut T) -> SinkResult {
        let whole = Whole {
            terms: self.terms.as_slice(),
            bound: self.bound,
            first,
        };
        let claims = Bounded {
            whole: &whole,
            own: id,
        };
        derive_along(alloc, &claims, sink)
    }

    ghost derives = { λ f first id db below ready. generalized_derives (sum_within f.terms.items f.bound) f.proper f.light first id db below ready };

    ghost few_steps = { λ f first id next. generalized_lines (sum_within f.terms.items f.bound) f.proper first id next };

    ghost sayable = { λ f first id next original start. generalized_sayable (sum_within f.terms.items f.bound) f.proper f.light (size_fits f.clauses_is f.modest) first id next original start };

    ghost short = { λ f first id next original start. generalized_short (sum_within f.terms.items f.bound) f.proper f.light (size_fits f.clauses_is f.modest) first id next original start };
}
