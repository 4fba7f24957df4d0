//! The constraint that a line writes, in normal form.
//!
//! Mostly it is in normal form but for its order: no coefficient has a sign, and each variable occurs once. Then the terms in order
//! are the constraint; a fresh variable, which comes first in the line that defines it, is moved to the end. Only else are net
//! coefficients computed.
ghost use Rattle.std.specs.Prelude.{◌≡◌, ◌∷◌, IsTrue, IfOk, pos, int_lt};
ghost use Rattle.std.specs.List.{list_all};
ghost use Rattle.std.specs.List.Sorted.{IsPermutation};
ghost use Rattle.pb_norm.specs.Constraints.{IsAscending, weights};
ghost use Rattle.pb_norm.specs.Halves.{written};
ghost use Rattle.pb_steps.specs.Allowed.{IsSlim};

use pb_base::{NoMemory, Term};
use pb_norm::{Linear, written};
use std::alloc::{AllocError, Global};

// True only if each term's variable is below the next one's.
fn ascend(terms: &[Term]) -> bool
    ensures { IsTrue result → IsAscending (weights terms.now) }
{
    terms.is_sorted_by(|term, next| term.lit.var < next.lit.var)
}

// True if all coefficients are above 0.
fn are_positive(terms: &[Term]) -> bool
    ensures { result ≡ list_all (λ t. int_lt (pos 0) t.coef) terms.now }
{
    terms.iter().all(|term| term.coef > 0)
}

// Moves the first term after the others.
fn turned(alloc: Global, first: &Term, others: &[Term]) -> Result<Vec<Term>, AllocError>
    ensures { IfOk result (λ ts. IsPermutation (first.now ∷ others.now) ts.items) }
{
    let mut list = Vec::with_capacity(alloc, others.len() + 1)?;
    list.extend_from_slice(others)?;
    list.push(*first)?;
    Ok(list)
}

// True if the variable of the first term is above that of the last of the others.
fn is_beyond(first: &Term, others: &[Term]) -> bool {
    match others.last() {
        Some(last) => first.lit.var > last.lit.var,
        None => false,
    }
}

// Copies the terms. If the first is that of a fresh variable, as in a line that defines one, it comes last.
fn copied(alloc: Global, terms: &[Term]) -> Result<Vec<Term>, AllocError>
    ensures { IfOk result (λ ts. IsPermutation terms.now ts.items) }
{
    match terms {
        [first, others @ ..] if is_beyond(first, others) => {
            let list = turned(alloc, first, others)?;
            Ok(list)
        }
        _ => {
            let list = Vec::from_slice(alloc, terms)?;
            Ok(list)
        }
    }
}

// Sorts terms by their variables. True only if each variable occurs once.
fn put_in_order(terms: &mut Vec<Term>) -> bool
    ensures same { IsPermutation terms.old.items terms.new.items }
    ensures ascending { IsTrue result → IsAscending (weights terms.new.items) }
{
    if ascend(terms) {
        return true;
    }
    terms.sort_unstable_by_key(|term| term.lit.var);
    ascend(terms)
}

/// Returns the constraint that terms and a right side write, in normal form. If no coefficient has a sign and each variable occurs once,
/// as in the lines of derivations that are made, that is the terms in order.
pub(crate) fn form_of(alloc: Global, terms: &[Term], right: &i128) -> Result<Linear, NoMemory>
    requires { IsSlim terms.now right.now }
    ensures { IfOk result (λ c. c ≡ written terms.now right.now) }
{
    let mut list = copied(alloc, terms)?;
    if *right >= 0 && put_in_order(&mut list) && are_positive(&list) {
        return Ok(Linear::from_parts(list, right.unsigned_abs()));
    }
    let form = written(alloc, terms, *right)?;
    Ok(form)
}
