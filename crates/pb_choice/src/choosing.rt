//! The choice of a family.
ghost use Rattle.std.specs.Prelude.{◌≡◌, ◌<◌, ◌^◌, IfOk, length};
ghost use Rattle.pb_norm.specs.Constraints.{weight};
ghost use Rattle.pb_norm.specs.BoundedSums.{IsProper};
ghost use Rattle.pb_norm.specs.Classes.{IsAtMostOne, IsCardinality, RestIs};
ghost use Rattle.pb_choice.specs.Choice.{amo_treatment, card_treatment, general_treatment, treatment_of, within_budget};
ghost use Rattle.pb_choice.specs.inner.Chosen.{IsChosen};
ghost use Rattle.pb_choice.specs.Residual.{rest_terms, IsLeft};

use crate::chosen::Chosen;
use crate::held::AtMostOne;
use crate::residual::Residual;
use crate::treatment::Treatment;
use crate::within::{adder_of, counter_within, diagram_within, totalizer_within, tree_within};
use pb_base::{Amo, Card, General, NoMemory, Options};
use pb_norm::{AtMost, Rest};
use std::alloc::Global;

// Returns the encoding of at most one literal that the option names, by size if none is named.
fn one_of(amo: Amo, sum: AtMost) -> Chosen
    requires class { IsAtMostOne sum }
    requires light { weight sum.terms < 2 ^ 100 }
    ensures { IsChosen (amo_treatment amo (length sum.terms)) sum result }
{
    let count = sum.terms().len();
    let held = AtMostOne { sum };
    match amo {
        Amo::Auto if count <= 6 => Chosen::Pairwise(held),
        Amo::Auto if count <= 30 => Chosen::Ladder(held),
        Amo::Auto => Chosen::Product(held),
        Amo::Pairwise => Chosen::Pairwise(held),
        Amo::Ladder => Chosen::Ladder(held),
        Amo::Product => Chosen::Product(held),
    }
}

// Builds the encoding of a cardinality constraint that the option names, by the bound if none is named; the adder past the budget.
fn card_of(alloc: Global, options: &Options, sum: AtMost) -> Result<Chosen, NoMemory>
    requires class { IsCardinality sum }
    requires light { weight sum.terms < 2 ^ 100 }
    ensures { IfOk result (IsChosen (within_budget options.now.budget sum (card_treatment options.now.card sum.bound)) sum) }
{
    let bound = sum.bound();
    match options.card {
        Card::Auto if bound <= 8 => counter_within(alloc, sum, options),
        Card::Auto => totalizer_within(alloc, sum, options),
        Card::Counter => counter_within(alloc, sum, options),
        Card::Totalizer => totalizer_within(alloc, sum, options),
    }
}

// Builds the encoding of a sum with weights that the option names; the adder past the budget.
fn general_of(alloc: Global, options: &Options, sum: AtMost) -> Result<Chosen, NoMemory>
    requires class { IsProper sum }
    requires light { weight sum.terms < 2 ^ 100 }
    ensures { IfOk result (IsChosen (within_budget options.now.budget sum (general_treatment options.now.general)) sum) }
{
    match options.general {
        General::Diagram => diagram_within(alloc, sum, options),
        General::Tree => tree_within(alloc, sum, options),
        General::Adder => adder_of(alloc, sum),
    }
}

/// Builds the family that encodes a residual constraint by its class, the options and the budget; nothing is built for a clause or less.
pub fn residual_of<'a>(
    alloc: Global,
    options: &Options,
    rest: Rest,
) -> Result<Residual<'a>, NoMemory>
    requires class { RestIs rest }
    requires light { weight (rest_terms rest) < 2 ^ 100 }
    ensures { IfOk result (IsLeft options.now rest) }
{
    match rest {
        Rest::Nothing => Ok(Residual::Nothing),
        Rest::Empty => Ok(Residual::Empty),
        Rest::Clause(lits) => Ok(Residual::Clause(lits)),
        Rest::One(sum) => Residual::own(alloc, one_of(options.amo, sum)),
        Rest::Card(sum) => Residual::own(alloc, card_of(alloc, options, sum)?),
        Rest::General(sum) => Residual::own(alloc, general_of(alloc, options, sum)?),
    }
}

/// Builds the adder for a residual constraint that is known to get it, without first building the family that would pass the budget.
pub fn adder_left<'a>(
    alloc: Global,
    options: &Options,
    rest: Rest,
) -> Result<Residual<'a>, NoMemory>
    requires class { RestIs rest }
    requires light { weight (rest_terms rest) < 2 ^ 100 }
    requires adder { treatment_of options.now rest ≡ Treatment.Adder }
    ensures { IfOk result (IsLeft options.now rest) }
{
    match rest {
        Rest::Card(sum) | Rest::General(sum) => Residual::own(alloc, adder_of(alloc, sum)?),
        other => residual_of(alloc, options, other),
    }
}
