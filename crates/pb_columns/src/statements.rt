//! The statements of columns.
ghost use Rattle.std.specs.Prelude.{◌≡◌, ◌≤◌, ◌-◌, ◌↔◌, All, IfErr, IfOk, IsTrue, length};
ghost use Rattle.pb_base.specs.Problems.{IsWithinLimits};
ghost use Rattle.pb_columns.specs.Conditions.{AllUnder};
ghost use Rattle.pb_columns.specs.Columns.{conditions_in, problem_of, columns_at, AreFit, ArePosedOf, AreStatementsOf, IsCondition, IsLight, IsSumUnder, StopsColumns};

use crate::fault::ColumnFault;
use crate::heads::heads_of;
use crate::places::{first_outside, sum_at, terms_asked};
use crate::posing::{first_stray, posed};
use crate::sum::PbcnfSum;
use crate::terms::{has_words, terms_of};
use crate::weights::first_heavy;
use pb_base::{LimitKind, MAX_STATEMENTS, Names, NoMemory, Problem, Products, Statements};
use std::alloc::Global;

/// Sums in columns: the terms of each after those of the one before.
#[derive(Drop)]
pub struct Columns<'a> {
    /// One word for each literal, or two, the low one first.
    pub words: &'a [u64],
    pub literals: &'a [i32],
    pub sums: &'a [PbcnfSum],
    /// The first fresh variable.
    pub first: u32,
}

// True if the first fresh variable and the lengths of the columns are in their ranges.
fn is_fit(columns: &Columns<'_>) -> bool
    ensures { IsTrue result ↔ AreFit (columns_at columns.now.words.now columns.now.literals.now columns.now.sums.now columns.now.first) }
{
    1 <= columns.first
        && columns.first <= 0x8000_0000
        && has_words(columns.words, columns.literals.len())
        && terms_asked(columns.sums) == columns.literals.len() as u128
}

// Returns the statements of columns that fit, if none has numbers that are too great.
fn joined(alloc: Global, columns: &Columns<'_>) -> Result<Statements, ColumnFault>
    requires { AreFit (columns_at columns.now.words.now columns.now.literals.now columns.now.sums.now columns.now.first) }
    ensures given { IfOk result (AreStatementsOf (columns_at columns.now.words.now columns.now.literals.now columns.now.sums.now columns.now.first)) }
    ensures sums { IfOk result (AllUnder (IsSumUnder columns.now.first) (conditions_in columns.now.sums.now)) }
    ensures conditions { IfOk result (λ ss. All (λ m. IsCondition columns.now.first m.condition) columns.now.sums.now) }
    ensures many { IfOk result (λ ss. length ss ≡ length columns.now.sums.now) }
    ensures stopped { IfErr result (StopsColumns (columns_at columns.now.words.now columns.now.literals.now columns.now.sums.now columns.now.first)) }
{
    let heads = heads_of(alloc, columns.sums)?;
    if let Some(at) = first_stray(columns.sums, columns.first) {
        return Err(ColumnFault::Unfit { at });
    }
    if let Some(place) = first_outside(columns.literals, columns.first) {
        return Err(ColumnFault::Unfit {
            at: sum_at(columns.sums, place),
        });
    }
    match terms_of(alloc, columns.words, columns.literals, columns.first) {
        Ok(terms) => Ok(Statements::from_columns(heads, terms)),
        Err(NoMemory) => Err(ColumnFault::NoMemory),
    }
}

// Returns the statements under their conditions, if there are not too many.
fn encoded(
    alloc: Global,
    columns: &Columns<'_>,
    statements: Statements,
) -> Result<Statements, ColumnFault>
    requires given { AreStatementsOf (columns_at columns.now.words.now columns.now.literals.now columns.now.sums.now columns.now.first) statements }
    requires sums { AllUnder (IsSumUnder columns.now.first) (conditions_in columns.now.sums.now) statements }
    requires conditions { All (λ m. IsCondition columns.now.first m.condition) columns.now.sums.now }
    requires many { length statements ≡ length columns.now.sums.now }
    requires light { AllUnder IsLight (conditions_in columns.now.sums.now) statements }
    ensures given { IfOk result (ArePosedOf (columns_at columns.now.words.now columns.now.literals.now columns.now.sums.now columns.now.first)) }
    ensures within { IfOk result (λ ss. IsWithinLimits (problem_of columns.now.first ss)) }
    ensures stopped { IfErr result (StopsColumns (columns_at columns.now.words.now columns.now.literals.now columns.now.sums.now columns.now.first)) }
{
    let Ok(posed) = posed(alloc, columns.sums, statements) else {
        return Err(ColumnFault::NoMemory);
    };
    if posed.len() > MAX_STATEMENTS {
        return Err(ColumnFault::Limit {
            which: LimitKind::Statements,
            at: 0,
        });
    }
    Ok(posed)
}

/// Returns the statements of columns, each under its condition, or the first fault.
pub fn statements_of(alloc: Global, columns: &Columns<'_>) -> Result<Statements, ColumnFault>
    // The statements are those of the sums, each with its terms, its relation and its right side, under its condition.
    ensures given { IfOk result (ArePosedOf (columns_at columns.now.words.now columns.now.literals.now columns.now.sums.now columns.now.first)) }
    // Their problem is within the limits of problems.
    ensures within { IfOk result (λ ss. IsWithinLimits (problem_of columns.now.first ss)) }
    // Else the cause that is reported is there, in the sum that is reported.
    ensures stopped { IfErr result (StopsColumns (columns_at columns.now.words.now columns.now.literals.now columns.now.sums.now columns.now.first)) }
{
    if !is_fit(columns) {
        return Err(ColumnFault::Unfit { at: 0 });
    }
    if columns.sums.len() > MAX_STATEMENTS {
        return Err(ColumnFault::Limit {
            which: LimitKind::Statements,
            at: 0,
        });
    }
    let statements = joined(alloc, columns)?;
    match first_heavy(columns.sums, &statements) {
        None => encoded(alloc, columns, statements),
        Some(at) => Err(ColumnFault::Limit {
            which: LimitKind::Weight,
            at,
        }),
    }
}

/// Returns the problem of statements, over the variables below the first fresh one.
pub fn problem_of(alloc: Global, first: u32, statements: Statements) -> Problem
    requires { 1 ≤ first }
    // The problem has these statements, and all variables below the first fresh one.
    ensures { result ≡ problem_of first statements }
{
    Problem {
        vars: first - 1,
        numbered: first - 1,
        names: Names::new(alloc),
        products: Products::new(alloc),
        objective: None,
        statements,
    }
}
