//! What is chosen of an encoding, in numbers.
ghost use Rattle.std.specs.Prelude.{◌≡◌};
ghost use Rattle.pb_base.specs.Budgets.{IsBudget};
ghost use Rattle.pbcnf_c.specs.Choices.{amo_of, bound_of, card_of, equal_of, general_of, options_at, options_of, table_of};

use pb_base::{Amo, Card, EqualMode, General, MAX_BUDGET, Options};
use pb_columns::wide;

/// The options of an encoding, in numbers. The defaults are 0 for all but the budget, which is 50,000.
#[repr(C)]
#[derive(Clone, Copy)]
pub struct PbcnfOptions {
    /// 0 by size, 1 pairwise, 2 ladder, 3 product.
    pub amo: u32,
    /// 0 by bound, 1 counter, 2 totalizer.
    pub card: u32,
    /// 0 diagram, 1 tree, 2 adder.
    pub general: u32,
    /// 0 split, 1 joint.
    pub equal: u32,
    /// 0 none, 1 a table of bounds on the objective.
    pub table: u32,
    /// From 1 to 10,000,000.
    pub budget: u32,
}

/// A bound on the objective.
#[repr(C)]
#[derive(Clone, Copy)]
pub struct PbcnfBound {
    /// 0 where there is none.
    pub set: u64,
    /// The number in two's complement of 128 bits.
    pub low: u64,
    pub high: u64,
}

// Returns the encoding of at most one literal that a number names; `None` above 3.
fn amo_of(word: u32) -> Option<Amo>
    ensures { result ≡ amo_of word }
{
    match word {
        0 => Some(Amo::Auto),
        1 => Some(Amo::Pairwise),
        2 => Some(Amo::Ladder),
        3 => Some(Amo::Product),
        _ => None,
    }
}

// Returns the encoding of cardinality constraints that a number names; `None` above 2.
fn card_of(word: u32) -> Option<Card>
    ensures { result ≡ card_of word }
{
    match word {
        0 => Some(Card::Auto),
        1 => Some(Card::Counter),
        2 => Some(Card::Totalizer),
        _ => None,
    }
}

// Returns the encoding of weighted sums that a number names; `None` above 2.
fn general_of(word: u32) -> Option<General>
    ensures { result ≡ general_of word }
{
    match word {
        0 => Some(General::Diagram),
        1 => Some(General::Tree),
        2 => Some(General::Adder),
        _ => None,
    }
}

// Returns the treatment of equalities that a number names; `None` above 1.
fn equal_of(word: u32) -> Option<EqualMode>
    ensures { result ≡ equal_of word }
{
    match word {
        0 => Some(EqualMode::Split),
        1 => Some(EqualMode::Joint),
        _ => None,
    }
}

// True for 1, a table of bounds, and false for 0; `None` above 1.
fn table_of(word: u32) -> Option<bool>
    ensures { result ≡ table_of word }
{
    match word {
        0 => Some(false),
        1 => Some(true),
        _ => None,
    }
}

// Returns the options that the numbers name, with this budget; `None` if a number is out of its range.
fn options_at(chosen: &PbcnfOptions, budget: u64) -> Option<Options>
    requires budget { budget ≡ chosen.now.budget }
    requires range { IsBudget budget }
    ensures { (range : IsBudget chosen.now.budget) → result ≡ options_at chosen.now range }
{
    let amo = amo_of(chosen.amo)?;
    let card = card_of(chosen.card)?;
    let general = general_of(chosen.general)?;
    let equal = equal_of(chosen.equal)?;
    let table = table_of(chosen.table)?;
    Some(Options {
        amo,
        card,
        general,
        equal,
        budget,
        table,
    })
}

/// Returns the options that the numbers name; `None` if one is out of its range.
pub fn options_of(chosen: &PbcnfOptions) -> Option<Options>
    ensures value { result ≡ options_of chosen.now }
{
    let budget = u64::from(chosen.budget);
    if budget == 0 || budget > MAX_BUDGET {
        return None;
    }
    options_at(chosen, budget)
}

/// Returns the bound on the objective, if one is set.
pub fn bound_of(bound: &PbcnfBound) -> Option<i128>
    ensures { result ≡ bound_of bound.now }
{
    if bound.set == 0 {
        None
    } else {
        Some(wide(bound.low, bound.high))
    }
}
