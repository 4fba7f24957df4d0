//! Families within a budget of fresh variables, and the adder in their place.
ghost use Rattle.std.specs.Prelude.{◌<◌, ◌^◌, IfOk};
ghost use Rattle.pb_norm.specs.Constraints.{weight};
ghost use Rattle.pb_norm.specs.BoundedSums.{IsProper};
ghost use Rattle.pb_norm.specs.Classes.{IsCardinality};
ghost use Rattle.pb_choice.specs.Choice.{within_budget};
ghost use Rattle.pb_choice.specs.inner.Chosen.{IsChosen};

use crate::chosen::Chosen;
use crate::held::{AdderOf, Cardinality, DiagramOf, TotalizerOf, TreeOf};
use crate::treatment::Treatment;
use pb_adder::Adder;
use pb_base::{NoMemory, Options};
use pb_counter::Counter;
use pb_diagram::Diagram;
use pb_family::{Built, Family};
use pb_gentot::Weighted;
use pb_norm::AtMost;
use pb_totalizer::Totalizer;
use std::alloc::Global;

/// Builds the adder, which no budget limits.
pub fn adder_of(alloc: Global, sum: AtMost) -> Result<Chosen, NoMemory>
    requires light { weight sum.terms < 2 ^ 100 }
    ensures { IfOk result (IsChosen Treatment.Adder sum) }
{
    // Brings in that it is proper, and its terms few.
    let _ = sum.bound();
    let family = Adder::build(alloc, &sum)?;
    Ok(Chosen::Adder(AdderOf { sum, family }))
}

/// Builds the counter, or the adder if the counter has more fresh variables than the budget.
pub fn counter_within(alloc: Global, sum: AtMost, options: &Options) -> Result<Chosen, NoMemory>
    requires class { IsCardinality sum }
    requires light { weight sum.terms < 2 ^ 100 }
    ensures { IfOk result (IsChosen (within_budget options.now.budget sum Treatment.Counter) sum) }
{
    // Brings in that its terms are few.
    let _ = sum.bound();
    if Counter::over(&sum).fresh() > options.budget {
        return adder_of(alloc, sum);
    }
    Ok(Chosen::Counter(Cardinality { sum }))
}

/// Builds the totalizer, or the adder if the totalizer has more fresh variables than the budget.
pub fn totalizer_within(alloc: Global, sum: AtMost, options: &Options) -> Result<Chosen, NoMemory>
    requires class { IsCardinality sum }
    requires light { weight sum.terms < 2 ^ 100 }
    ensures { IfOk result (IsChosen (within_budget options.now.budget sum Treatment.Totalizer) sum) }
{
    // Brings in that its terms are few.
    let _ = sum.bound();
    match Totalizer::build(alloc, &sum, options.budget)? {
        Built::Fits(family) => Ok(Chosen::Totalizer(TotalizerOf { sum, family })),
        Built::Over => adder_of(alloc, sum),
    }
}

/// Builds the diagram, or the adder if the diagram has more fresh variables than the budget.
pub fn diagram_within(alloc: Global, sum: AtMost, options: &Options) -> Result<Chosen, NoMemory>
    requires class { IsProper sum }
    requires light { weight sum.terms < 2 ^ 100 }
    ensures { IfOk result (IsChosen (within_budget options.now.budget sum Treatment.Diagram) sum) }
{
    // Brings in that its terms are few.
    let _ = sum.bound();
    match Diagram::build(alloc, &sum, options.budget)? {
        Built::Fits(family) => Ok(Chosen::Diagram(DiagramOf { sum, family })),
        Built::Over => adder_of(alloc, sum),
    }
}

/// Builds the generalized totalizer, or the adder if the former has more fresh variables than the budget.
pub fn tree_within(alloc: Global, sum: AtMost, options: &Options) -> Result<Chosen, NoMemory>
    requires class { IsProper sum }
    requires light { weight sum.terms < 2 ^ 100 }
    ensures { IfOk result (IsChosen (within_budget options.now.budget sum Treatment.Tree) sum) }
{
    // Brings in that its terms are few.
    let _ = sum.bound();
    match Weighted::build(alloc, &sum, options.budget)? {
        Built::Fits(family) => Ok(Chosen::Tree(TreeOf { sum, family })),
        Built::Over => adder_of(alloc, sum),
    }
}
