//! The step by which a constraint becomes its residual sum.
//!
//! It is one `pol` line: the constraint, each unit weakened away, `s`, and `d` by the coefficient that all terms then have, or by 1.
//! These are exactly the steps of the reduction, so the result is the core, and a family's derivation starts from its own sum. The
//! line is written also if the constraint is its own core, so that ids depend on the class alone. Its constraint is deleted once the
//! clauses are put out. Units and a clause follow from the constraint itself by propagation, and need no such line.
ghost use Rattle.std.specs.Prelude.{◌≡◌, ◌<◌, ◌-◌, ◌^◌, ◌++◌, pos, IfOk, filter, map};
ghost use Rattle.pb_norm.specs.Constraints.{weight, weights};
ghost use Rattle.pb_norm.specs.Reduction.{all_weigh, first_coef, is_above};
ghost use Rattle.pb_choice.specs.Reducing.{cut_terms, divisor, reducing, reduction, weaken_unit};

use pb_base::{Lit, Lits, Term};
use pb_norm::Linear;
use pb_steps::{PolOp, PolOps, Step};
use std::alloc::{AllocError, Global};

/// A constraint, its units and its id.
#[derive(Clone, Copy)]
pub struct Origin<'a> {
    pub constraint: &'a Linear,
    pub units: &'a Lits,
    pub id: u64,
}

// Returns the degree less the coefficients above the slack, and 0 if they are more.
fn degree_left(terms: &[Term], slack: u128, degree: u128) -> u128
    ensures { result ≡ degree - weight (filter (is_above slack) (weights terms.now)) }
{
    let mut left = degree;
    for term in terms {
        if term.weight() > slack {
            left = left.saturating_sub(term.weight());
        }
    }
    left
}

// Returns the first coefficient that is at most the slack, capped at the degree, and 1 if there is none.
fn first_cut(terms: &[Term], slack: u128, degree: u128) -> u128
    requires { degree < 2 ^ 127 }
    ensures small { result < 2 ^ 127 }
    ensures value { result ≡ first_coef (cut_terms slack degree (weights terms.now)) }
{
    for term in terms {
        if term.weight() <= slack {
            return term.weight().min(degree);
        }
    }
    1
}

// True if all coefficients that are at most the slack, capped at the degree, are equal to `coef`.
fn all_cut(terms: &[Term], slack: u128, degree: u128, coef: u128) -> bool
    ensures { result ≡ all_weigh coef (cut_terms slack degree (weights terms.now)) }
{
    for term in terms {
        if term.weight() <= slack && term.weight().min(degree) != coef {
            return false;
        }
    }
    true
}

// Returns the number by which a constraint is divided once its units are gone: the saturated coefficient that all terms have, or 1.
fn divisor(constraint: &Linear) -> i128
    ensures { result ≡ pos (divisor constraint.now) }
{
    let terms = constraint.terms();
    let slack = constraint.weight().saturating_sub(constraint.degree());
    let degree = degree_left(terms, slack, constraint.degree());
    let first = first_cut(terms, slack, degree);
    if all_cut(terms, slack, degree, first) {
        first as i128
    } else {
        1
    }
}

// Adds that the variables of units are weakened away.
fn push_units(ops: &mut Vec<PolOp>, units: &[Lit]) -> Result<(), AllocError>
    ensures { IfOk result (λ _. ops.new.items ≡ ops.old.items ++ map weaken_unit units.now) }
{
    for unit in units {
        ops.push(PolOp::Weaken(unit.var))?;
    }
    Ok(())
}

// Appends all operations of the reduction: weaken the units away, saturate, divide.
fn push_reducing(ops: &mut Vec<PolOp>, origin: &Origin<'_>) -> Result<(), AllocError>
    ensures { IfOk result (λ _. ops.new.items ≡ ops.old.items ++ reducing origin.now.id origin.now.units.now (divisor origin.now.constraint.now)) }
{
    ops.push(PolOp::Push(origin.id))?;
    push_units(ops, origin.units.as_slice())?;
    ops.push(PolOp::Saturate)?;
    ops.push(PolOp::Div(divisor(origin.constraint)))?;
    Ok(())
}

/// Returns the step that takes the units out of a constraint, saturates it and divides it.
pub fn reducing_step(alloc: Global, origin: &Origin<'_>) -> Result<Step, AllocError>
    ensures { IfOk result (λ step. step ≡ reduction origin.now.id origin.now.units.now origin.now.constraint.now) }
{
    let mut ops = Vec::new(alloc);
    push_reducing(&mut ops, origin)?;
    Ok(Step::Pol(PolOps::from_vec(ops)))
}
