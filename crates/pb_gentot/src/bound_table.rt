//! Tables of bounds for a weighted sum.
ghost use Rattle.std.specs.Prelude.{◌≡◌, ◌≤◌, ◌<◌, ◌+◌, ◌^◌, pos, length, IfOk};
ghost use Rattle.std.specs.List.{slice_get};
ghost use Rattle.pb_norm.specs.BoundedSums.{IsOverDistinct};
ghost use Rattle.pb_norm.specs.Constraints.{AllPositive, weight, weights};
ghost use Rattle.pb_family.specs.Budgets.{IsOverExactly, IfFits};
ghost use Rattle.pb_family.specs.Families.{VarsBelow};
ghost use Rattle.pb_family.specs.Handing.{HandsIfMemory};
ghost use Rattle.pb_family.specs.StepSinks.{HandsSteps};
ghost use Rattle.pb_tree.specs.Tree.{tree_of};
ghost use Rattle.pb_gentot.specs.BoundTable.{table_values, table_output, table_clauses, table_fresh, table_size, table_rows};
ghost use Rattle.pb_gentot.specs.BoundTableSteps.{table_steps};
ghost use Rattle.pb_gentot.specs.inner.Measured.{IsMeasured};
ghost use Rattle.pb_gentot.specs.inner.Outputs.{output_in, HasRoom};

use crate::measure::{Part, measure};
use crate::outputs::Outputs;
use crate::table_clauses::emit_table;
use crate::table_steps::derive_table;
use pb_base::{Lit, NoMemory, Term, Terms};
use pb_family::{Built, ClauseSink, SinkResult, StepSink};
use pb_norm::weight_of;
use std::alloc::{AllocError, Global};
use std::marker::Model;

/// Along a generalized totalizer (Joshi, Martins and Manquinho 2015, in one direction) with no cut, a literal for each value
/// that a sum can have beside 0. Where the literal is assumed false, the sum is less than the value.
#[derive(Drop)]
pub struct BoundTable {
    terms: Vec<Term>,
    weight: u128,
    values: Vec<u128>,
    fresh: u64,
    clauses: u64,
}

impl Model for BoundTable {
    ghost use Rattle.std.specs.Prelude.{List};
    ghost use Rattle.pb_norm.specs.Constraints.{Weighted, weights};
    ghost use Rattle.pb_gentot.specs.inner.KeptTables.{IsKeptTable};

    ghost Value = { List Weighted };

    ghost view = { λ t. weights t.terms.items };

    ghost invariant = { λ t. IsKeptTable t.terms.items t.weight t.values.items t.fresh t.clauses };
}

// A number as one with a sign.
fn signed(value: u128) -> i128
    requires { value < 2 ^ 100 }
    ensures { result ≡ pos value }
{
    value as i128
}

/// The values and numbers of a sum, if it has no more fresh variables than the budget. There is one at least for each term
/// but the first.
fn measure_sum(
    alloc: Global,
    terms: &[Term],
    bound: u128,
    budget: u64,
) -> Result<Option<Part>, AllocError>
    requires small { bound < 2 ^ 100 }
    requires modest { budget < 2 ^ 24 }
    ensures { IfOk result (λ made. IsMeasured bound budget (tree_of (weights terms.now)) made) }
{
    if terms.is_empty() {
        return Ok(Some(Part {
            values: Vec::new(alloc),
            fresh: 0,
            clauses: 0,
        }));
    }
    if terms.len() as u64 - 1 > budget {
        return Ok(None);
    }
    measure(alloc, terms, bound, budget)
}

impl BoundTable {
    /// The table of a sum, if it has no more fresh variables than the budget.
    pub fn build(alloc: Global, terms: &Terms, budget: u64) -> Result<Built<BoundTable>, NoMemory>
        requires positive { AllPositive (weights terms.now) }
        requires distinct { IsOverDistinct (weights terms.now) }
        requires light { weight (weights terms.now) < 2 ^ 100 }
        requires modest { budget < 2 ^ 24 }
        // The budget is passed iff the fresh variables are more.
        ensures over { IfOk result (λ built. IsOverExactly (table_fresh (weights terms.now)) budget built) }
        // The table is of these terms.
        ensures terms { IfOk result (λ built. IfFits (λ t. t ≡ weights terms.now) built) }
    {
        let given = terms.as_slice();
        let weight = weight_of(given);
        let part = match measure_sum(alloc, given, weight, budget)? {
            Some(part) => part,
            None => return Ok(Built::Over),
        };
        let mut kept = Vec::new(alloc);
        kept.extend_from_slice(given)?;
        let between = part.values.as_slice().len().saturating_sub(1) as u64;
        Ok(Built::Fits(BoundTable {
            terms: kept,
            weight,
            values: part.values,
            fresh: part.fresh,
            clauses: part.clauses + between,
        }))
    }

    /// How many fresh variables it has.
    pub fn fresh(&self) -> u64
        // The number of fresh variables is the defined one.
        ensures { result ≡ table_fresh self.now }
    {
        self.fresh
    }

    /// How many clauses it has.
    pub fn clauses(&self) -> u64
        // The number of clauses is the defined one.
        ensures { result ≡ table_size self.now }
    {
        self.clauses
    }

    /// How many rows it has: one for each value.
    pub fn len(&self) -> u64
        // There is a row for each value of the sum other than 0.
        ensures { result ≡ length (table_values self.now) }
    {
        self.values.as_slice().len() as u64
    }

    // The literals of the values: a single term's own, or the last fresh variables.
    fn outputs(&self, first: u32) -> Outputs
        requires some { 1 ≤ length (table_values self.now) }
        requires low { 1 ≤ first }
        requires fits { first + table_fresh self.now ≤ 2 ^ 31 }
        ensures room { HasRoom result (length (table_values self.now)) }
        ensures literals { output_in result (table_values self.now) ≡ table_output self.now first }
    {
        let terms = self.terms.as_slice();
        if terms.len() == 1 {
            return Outputs::Single(terms[0].lit);
        }
        Outputs::Fresh(first + (self.fresh - self.len()) as u32)
    }

    /// The value of a row and its literal, where the fresh variables are numbered from `first` on.
    pub fn row(&self, first: u32, i: u64) -> Option<(i128, Lit)>
        requires original { VarsBelow first self.now }
        requires low { 1 ≤ first }
        requires fits { first + table_fresh self.now ≤ 2 ^ 31 }
        // The value and the literal are those of the row.
        ensures { result ≡ slice_get (table_rows self.now first) i }
    {
        if i >= self.len() {
            return None;
        }
        let place = i as usize;
        let values = self.values.as_slice();
        let lit = self.outputs(first).at(place);
        Some((signed(values[place]), lit))
    }

    /// Hands over the clauses, in order. The fresh variables are numbered from `first` on.
    pub fn emit<S: ClauseSink>(&self, alloc: Global, first: u32, sink: &mut S) -> SinkResult
        requires original { VarsBelow first self.now }
        requires low { 1 ≤ first }
        requires fits { first + table_fresh self.now ≤ 2 ^ 31 }
        // Exactly the table's clauses were emitted, in order, or a first part of their text until the sink failed or memory ran out.
        ensures { HandsIfMemory (table_clauses self.now first) result (S.state sink.old) (S.state sink.new) }
    {
        emit_table(alloc, self.terms.as_slice(), self.weight, first, sink)
    }

    /// Hands over the steps that derive them, in order, from no constraint at all.
    pub fn derive<T: StepSink>(&self, alloc: Global, first: u32, sink: &mut T) -> SinkResult
        requires original { VarsBelow first self.now }
        requires low { 1 ≤ first }
        requires fits { first + table_fresh self.now ≤ 2 ^ 31 }
        requires few { (T.state sink.old).next ≤ 2 ^ 61 }
        // Exactly the steps that derive them were emitted, or the first ones until the sink failed or memory ran out.
        ensures { HandsSteps (table_steps self.now first (T.state sink.old).next) result (T.state sink.old) (T.state sink.new) }
    {
        derive_table(alloc, self.terms.as_slice(), self.weight, first, sink)
    }
}
