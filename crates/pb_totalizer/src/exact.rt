//! Exactly so many of some literals, by a totalizer in both directions.
//!
//! `build` requires fewer than 2^31 literals, since that its counts fit 64 bits depends on it. It follows if the variables differ,
//! and every constraint in memory shows it.
ghost use Rattle.std.specs.Prelude.{◌≡◌, ◌<◌, ◌^◌, IsTrue, length, map, IfOk};
ghost use Rattle.pb_norm.specs.Constraints.{weights};
ghost use Rattle.pb_norm.specs.BoundedSums.{IsProper, sum_within};
ghost use Rattle.pb_norm.specs.Reduction.{all_weigh};
ghost use Rattle.pb_totalizer.specs.Exact.{exact_fresh, exact_size};
ghost use Rattle.pb_totalizer.specs.laws.UnitTerms.{unit_term};

use crate::emission::emit_exact;
use crate::exact_derivation::derive_exact;
use crate::polarity::Polarity;
use crate::size::size_of;
use crate::whole::Whole;
use pb_base::{Lit, Lits, NoMemory, Term};
use pb_family::{Built, ClauseSink, Pair, SinkResult, StepSink, sink_result};
use std::alloc::{AllocError, Global};

/// The totalizer of literals of which exactly so many are to be true (Bailleux and Boufkhad 2003, in both directions): a tree of
/// halves, each node of which says how many literals below it are true, up to one more than that number.
#[derive(Drop)]
pub struct Exact {
    terms: Vec<Term>,
    bound: u64,
    fresh: u64,
    clauses: u64,
    ghost units: { IsTrue (all_weigh 1 (weights terms.items)) },
    ghost proper: { IsProper (sum_within terms.items bound) },
    ghost few: { length terms.items < 2 ^ 31 },
    ghost fresh_is: { fresh ≡ exact_fresh (sum_within terms.items bound) },
    ghost clauses_is: { clauses ≡ exact_size (sum_within terms.items bound) },
}

/// The literals as terms with the coefficient 1.
fn unit_terms(alloc: Global, lits: &[Lit]) -> Result<Vec<Term>, AllocError>
    ensures { IfOk result (λ terms. terms.items ≡ map unit_term lits.now) }
{
    lits.iter()
        .map(|lit| Term { coef: 1, lit: *lit })
        .collect(alloc)
}

impl Exact {
    ghost use Rattle.std.specs.Prelude.{◌≡◌, ◌≢◌, ◌≤◌, ◌<◌, ◌^◌, ℕ, IfOk, length};
    ghost use Rattle.std.specs.List.{AllPairs};
    ghost use Rattle.pb_family.specs.Budgets.{IsOverExactly, IfFits};
    ghost use Rattle.pb_totalizer.specs.Exact.{exact_clauses, exact_fresh, exact_size, at_least, literals_within};
    ghost use Rattle.pb_totalizer.specs.ExactOutputs.{ReachesOutputs};

    /// The totalizer of literals of which exactly `number` are to be true, if it has no more fresh variables than the budget.
    pub fn build(
        alloc: Global,
        lits: &Lits,
        number: u32,
        budget: u64,
    ) -> Result<Built<Exact>, NoMemory>
        requires distinct { AllPairs (λ k l. k.var ≢ l.var) lits.now }
        requires some { 1 ≤ number }
        requires not_all { number < length lits.now }
        requires few { length lits.now < 2 ^ 31 }
        // The budget is passed iff the fresh variables are more.
        ensures over { IfOk result (λ built. IsOverExactly (exact_fresh (literals_within lits.now number)) budget built) }
        // The upper sum is that at most so many of the literals are true.
        ensures most { IfOk result (λ built. IfFits (λ t. ⟦<Exact as Pair>⟧.most t ≡ literals_within lits.now number) built) }
        // The lower sum is that at least so many are.
        ensures least { IfOk result (λ built. IfFits (λ t. ⟦<Exact as Pair>⟧.least t ≡ at_least (literals_within lits.now number)) built) }
        // The number of fresh variables is the defined one.
        ensures fresh { IfOk result (λ built. IfFits (λ t. ⟦<Exact as Pair>⟧.fresh_count t ≡ exact_fresh (literals_within lits.now number)) built) }
        // The number of clauses is the defined one.
        ensures clauses { IfOk result (λ built. IfFits (λ t. ⟦<Exact as Pair>⟧.clause_count t ≡ exact_size (literals_within lits.now number)) built) }
        // The clauses are those of the totalizer in both directions.
        ensures list { IfOk result (λ built. IfFits (λ t. (first : ℕ) → ⟦<Exact as Pair>⟧.clause_list t first ≡ exact_clauses (literals_within lits.now number) first) built) }
        // From any given literals, propagation reaches each output of each node whose leaves decide it, either way, or a conflict.
        ensures outputs { IfOk result (λ built. IfFits (λ t. (first : ℕ) → ReachesOutputs (exact_clauses (literals_within lits.now number) first) (literals_within lits.now number) first) built) }
    {
        let terms = unit_terms(alloc, lits.as_slice())?;
        let bound = number as u64;
        let size = size_of(Polarity::Both, terms.as_slice(), bound);
        if size.fresh > budget {
            return Ok(Built::Over);
        }
        Ok(Built::Fits(Exact {
            terms,
            bound,
            fresh: size.fresh,
            clauses: size.clauses + 2,
        }))
    }
}

impl Pair for Exact {
    ghost use Rattle.pb_totalizer.specs.Exact.{exact_clauses, exact_fresh, exact_size, at_least};
    ghost use Rattle.pb_totalizer.specs.ExactSum.{exact_sum};
    ghost use Rattle.pb_totalizer.specs.ExactSteps.{exact_steps};
    ghost use Rattle.pb_totalizer.specs.laws.ExactDerives.{exact_derives, exact_lines};
    ghost use Rattle.pb_totalizer.specs.laws.ExactLaws.{pair_sound, pair_extends, exact_counts, exact_names, exact_propagates_most, exact_propagates_least, exact_propagates};
    ghost use Rattle.pb_totalizer.specs.laws.ExactShort.{exact_sayable, exact_short};
    ghost use Rattle.pb_totalizer.specs.laws.TotalizerShort.{few_terms};

    ghost most = { λ f. exact_sum f };

    ghost least = { λ f. at_least (exact_sum f) };

    ghost fresh_count = { λ f. exact_fresh (exact_sum f) };

    ghost clause_count = { λ f. exact_size (exact_sum f) };

    ghost clause_list = { λ f first. exact_clauses (exact_sum f) first };

    ghost step_list = { λ f. exact_steps (exact_sum f) };

    ghost TakesNoMemory = { λ _. Unit {0} };

    fn fresh(&self) -> u64 {
        self.fresh
    }

    fn clauses(&self) -> u64 {
        self.clauses
    }

    fn emit<S: ClauseSink>(&self, alloc: Global, first: u32, sink: &mut S) -> SinkResult {
        let whole = Whole {
            terms: self.terms.as_slice(),
            bound: self.bound,
            first,
        };
        sink_result(emit_exact(alloc, &whole, sink))
    }

    fn derive<T: StepSink>(
        &self,
        alloc: Global,
        first: u32,
        lower: u64,
        upper: u64,
        sink: &mut T,
    ) -> SinkResult {
        let whole = Whole {
            terms: self.terms.as_slice(),
            bound: self.bound,
            first,
        };
        derive_exact(alloc, &whole, lower, upper, sink)
    }

    ghost sound = { λ f first below a model. pair_sound (exact_sum f) f.units f.proper first a model };

    ghost extends = { λ f first below a holds. pair_extends (exact_sum f) f.units f.proper first below a holds };

    ghost counts = { λ f first. exact_counts (exact_sum f) first };

    ghost names = { λ f first. exact_names (exact_sum f) f.units f.proper first };

    ghost propagates_most = { λ f first below. exact_propagates_most (exact_sum f) f.units f.proper first };

    ghost propagates_least = { λ f first below. exact_propagates_least (exact_sum f) f.units f.proper first };

    ghost propagates = { λ f first below. exact_propagates (exact_sum f) f.units f.proper first };

    ghost derives = { λ f first lower upper db below ready. exact_derives (exact_sum f) f.units f.proper (few_terms _ f.few) first lower upper db below ready };

    ghost few_steps = { λ f first lower upper next. exact_lines (exact_sum f) first lower upper next };

    ghost sayable = { λ f first lower upper next original low high. exact_sayable (exact_sum f) f.units f.proper (few_terms _ f.few) first lower upper next original low high };

    ghost short = { λ f first lower upper next original low high. exact_short (exact_sum f) f.units f.proper (few_terms _ f.few) first lower upper next original low high };
}
