//! What the terms of a constraint say together.
ghost use Rattle.std.specs.Prelude.{◌≡◌, ◌==◌, ◌<◌, ◌^◌, IfOk, map};
ghost use Rattle.std.specs.List.{list_all};
ghost use Rattle.pb_norm.specs.Constraints.{weight, weights};
ghost use Rattle.pb_norm.specs.inner.Kept.{on_weight};
ghost use Rattle.pb_norm.specs.Reduction.{all_weigh, first_coef};

use pb_base::{Lit, Term};
use std::alloc::{AllocError, Global};

/// The sum of the coefficients.
pub fn weight_of(terms: &[Term]) -> u128
    requires { weight (weights terms.now) < 2 ^ 128 }
    ensures { result ≡ weight (weights terms.now) }
{
    terms.iter().map(|term| term.weight()).sum()
}

/// The literals of the terms.
pub fn lits_of(alloc: Global, terms: &[Term]) -> Result<Vec<Lit>, AllocError>
    ensures { IfOk result (λ lits. lits.items ≡ map (λ t. t.lit) terms.now) }
{
    let mut lits = Vec::with_capacity(alloc, terms.len())?;
    for term in terms {
        lits.push(term.lit)?;
    }
    Ok(lits)
}

/// The coefficient of the first term, and 1 if there is none.
pub fn first_coef(terms: &[Term]) -> u128
    ensures { result ≡ first_coef (weights terms.now) }
{
    match terms {
        [first, ..] => first.weight(),
        [] => 1,
    }
}

// Whether the coefficient of each term is this number.
fn each_weighs(terms: &[Term], coef: u128) -> bool
    ensures { result ≡ list_all (on_weight (λ t. t.coef == coef)) terms.now }
{
    terms.iter().all(|term| term.weight() == coef)
}

/// Whether all coefficients are this number.
pub fn all_weigh(terms: &[Term], coef: u128) -> bool
    ensures { result ≡ all_weigh coef (weights terms.now) }
{
    each_weighs(terms, coef)
}
