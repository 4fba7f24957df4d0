//! What is done to each term.
ghost use Rattle.std.specs.Prelude.{◌≡◌, ◌≢◌, ◌<◌, ◌≤◌, ◌^◌, ◌*◌, All, map, filter, sum_by, length, slice_index_or, IfOk, IfSome, IsNone};
ghost use Rattle.std.specs.List.Sorted.{IsPartitionPoint};
ghost use Rattle.pb_base.specs.declared.literal.Term.{Term};
ghost use Rattle.pb_norm.specs.Constraints.{weighted, weights, AreUnsigned, IsAscending};
ghost use Rattle.pb_norm.specs.Halves.{is_positive};
ghost use Rattle.pb_norm.specs.inner.Kept.{on_term, on_weight};
ghost use Rattle.pb_norm.specs.Reduction.{cut_to, opposite, quotient_up};
ghost use Rattle.pb_steps.specs.Operations.{scaled, shrunk, is_other, coef_at};
ghost use Rattle.pb_operations.specs.inner.Sides.{zeroed};

use pb_base::{Term, Var};
use std::alloc::{AllocError, Global};

/// Each coefficient multiplied.
pub(crate) fn scale_terms(
    alloc: Global,
    terms: &[Term],
    factor: u128,
) -> Result<Vec<Term>, AllocError>
    requires { All (λ t. factor * (weighted t).coef < 2 ^ 127) terms.now }
    ensures { IfOk result (λ v. v.items ≡ map (on_term (scaled factor)) terms.now) }
{
    terms
        .iter()
        .map(|term| Term::weighing(factor * term.weight(), term.lit))
        .collect(alloc)
}

/// A quotient, rounded up.
pub(crate) fn quotient_up(divisor: u128, number: u128) -> u128
    requires divisor { 0 < divisor }
    requires small { divisor ≤ 2 ^ 127 }
    requires number { number < 2 ^ 127 }
    ensures { result ≡ quotient_up divisor number }
{
    if number == 0 {
        return 0;
    }
    // A division takes long, and the divisor of a clause's line is beyond all numbers.
    if number <= divisor {
        return 1;
    }
    (number + (divisor - 1)) / divisor
}

/// Each coefficient divided, rounding up.
pub(crate) fn shrunk(alloc: Global, terms: &[Term], divisor: u128) -> Result<Vec<Term>, AllocError>
    requires divisor { 0 < divisor }
    requires small { divisor ≤ 2 ^ 127 }
    requires terms { All (λ t. (weighted t).coef < 2 ^ 127) terms.now }
    ensures { IfOk result (λ v. v.items ≡ map (on_term (shrunk divisor)) terms.now) }
{
    terms
        .iter()
        .map(|term| Term::weighing(quotient_up(divisor, term.weight()), term.lit))
        .collect(alloc)
}

// Each coefficient at most the degree.
fn cut(alloc: Global, terms: &[Term], degree: u128) -> Result<Vec<Term>, AllocError>
    requires { degree < 2 ^ 127 }
    ensures { IfOk result (λ v. v.items ≡ map (on_term (cut_to degree)) terms.now) }
{
    terms
        .iter()
        .map(|term| Term::weighing(term.weight().min(degree), term.lit))
        .collect(alloc)
}

/// Drops the coefficients of 0.
pub(crate) fn keep_positive(terms: &mut Vec<Term>)
    ensures { terms.new.items ≡ filter (on_weight is_positive) terms.old.items }
{
    terms.retain(|term| term.weight() > 0);
}

/// Each coefficient at most the degree, without those of 0.
pub(crate) fn saturate_terms(
    alloc: Global,
    terms: &[Term],
    degree: u128,
) -> Result<Vec<Term>, AllocError>
    requires { degree < 2 ^ 127 }
    ensures { IfOk result (λ v. v.items ≡ filter (on_weight is_positive) (map (on_term (cut_to degree)) terms.now)) }
{
    let mut kept = cut(alloc, terms, degree)?;
    keep_positive(&mut kept);
    Ok(kept)
}

// The first place on where no earlier variable stands.
fn place_for(terms: &[Term], var: Var) -> usize
    requires { IsAscending (weights terms.now) }
    ensures within { result ≤ length terms.now }
    ensures point { IsPartitionPoint (λ t. t.lit.var < var) (λ t. var ≤ t.lit.var) terms.now result }
{
    terms.partition_point(|term| term.lit.var < var)
}

// Where the term of a variable is, if there is one.
fn place_of(terms: &[Term], var: Var) -> Option<usize>
    requires { IsAscending (weights terms.now) }
    ensures below { IfSome result (λ i. i < length terms.now) }
    ensures at { IfSome result (λ i. (d : Term) → (slice_index_or terms.now i d).lit.var ≡ var) }
    ensures none { IsNone result → All (λ t. t.lit.var ≢ var) terms.now }
{
    let place = place_for(terms, var);
    if place < terms.len() && terms[place].lit.var == var {
        Some(place)
    } else {
        None
    }
}

// The same, with a guess that is tried first.
fn place_near(terms: &[Term], var: Var, guess: usize) -> Option<usize>
    requires { IsAscending (weights terms.now) }
    ensures below { IfSome result (λ i. i < length terms.now) }
    ensures at { IfSome result (λ i. (d : Term) → (slice_index_or terms.now i d).lit.var ≡ var) }
    ensures none { IsNone result → All (λ t. t.lit.var ≢ var) terms.now }
{
    if guess < terms.len() && terms[guess].lit.var == var {
        return Some(guess);
    }
    place_of(terms, var)
}

/// Takes the term of a variable out, if there is one. Its coefficient, and 0 where there is none.
pub(crate) fn take_var(terms: &mut Vec<Term>, var: Var) -> u128
    requires { IsAscending (weights terms.old.items) }
    ensures others { terms.new.items ≡ filter (on_weight (is_other var)) terms.old.items }
    ensures lost { result ≡ sum_by (on_weight (coef_at var)) terms.old.items }
{
    match place_of(terms, var) {
        Some(place) => terms.remove(place).weight(),
        None => 0,
    }
}

/// Takes the coefficient of a variable, if it has a term, and leaves 0. The coefficient, and 0 where there is no term. The variable is
/// looked for at a place first, which then is the one after it: variables that go one after the other mostly ascend.
pub(crate) fn take_coef(terms: &mut Vec<Term>, var: Var, next: &mut usize) -> u128
    requires { IsAscending (weights terms.old.items) }
    ensures left { weights terms.new.items ≡ map (zeroed var) (weights terms.old.items) }
    ensures unsigned { AreUnsigned terms.old.items → AreUnsigned terms.new.items }
    ensures lost { result ≡ sum_by (on_weight (coef_at var)) terms.old.items }
{
    match place_near(terms, var, *next) {
        Some(place) => {
            *next = place + 1;
            let term = terms[place];
            terms[place] = Term::weighing(0, term.lit);
            term.weight()
        }
        None => 0,
    }
}

/// The terms of the negated literals.
pub(crate) fn opposites(alloc: Global, terms: &[Term]) -> Result<Vec<Term>, AllocError>
    requires { All (λ t. (weighted t).coef < 2 ^ 127) terms.now }
    ensures { IfOk result (λ ts. ts.items ≡ map (on_term opposite) terms.now) }
{
    terms
        .iter()
        .map(|term| Term::weighing(term.weight(), term.lit.not()))
        .collect(alloc)
}
