//! Sums in little memory.
ghost use Rattle.std.specs.Prelude.{◌≡◌, ◌==◌, IfOk, IfSome};
ghost use Rattle.std.specs.List.{list_any};
ghost use Rattle.pb_norm.specs.Constraints.{terms_of, weights};
ghost use Rattle.pb_database.specs.Naming.{is_of};

use crate::short_term::ShortTerm;
use pb_base::{NoMemory, Term, Var};
use pb_norm::Linear;
use std::alloc::Global;
use std::marker::Model;

/// A constraint whose coefficients and degree take 32 bits each: eight bytes a term, where as it came it took four times as many.
#[derive(Drop)]
pub(crate) struct ShortSum {
    terms: Vec<ShortTerm>,
    degree: u32,
}

impl Model for ShortSum {
    ghost use Rattle.pb_norm.specs.Constraints.{Constraint, IsLinear};

    ghost Value = { Constraint };

    ghost view = { λ s. record { terms = s.terms.items; degree = s.degree } };

    ghost invariant = { λ s. IsLinear (record { terms = s.terms.items; degree = s.degree }) };
}

// Returns the terms in eight bytes each, if all coefficients take 32 bits.
fn short_terms(alloc: Global, terms: &[Term]) -> Result<Option<Vec<ShortTerm>>, NoMemory>
    ensures { IfOk result (λ found. IfSome found (λ v. v.items ≡ weights terms.now)) }
{
    let mut list = Vec::with_capacity(alloc, terms.len())?;
    for term in terms {
        let Some(short) = ShortTerm::of(term) else {
            return Ok(None)
        };
        list.push(short)?;
    }
    Ok(Some(list))
}

// Returns the terms as they came.
fn wide_terms(alloc: Global, terms: &[ShortTerm]) -> Result<Vec<Term>, NoMemory>
    ensures { IfOk result (λ v. v.items ≡ terms_of terms.now) }
{
    let mut list = Vec::with_capacity(alloc, terms.len())?;
    for term in terms {
        list.push(term.get())?;
    }
    Ok(list)
}

impl ShortSum {
    /// Packs a constraint into little memory, if its coefficients and its degree take 32 bits each.
    pub(crate) fn of(alloc: Global, constraint: &Linear) -> Result<Option<ShortSum>, NoMemory>
        ensures { IfOk result (λ found. IfSome found (λ sum. sum ≡ constraint.now)) }
    {
        let degree = constraint.degree();
        if degree > u32::MAX as u128 {
            return Ok(None);
        }
        match short_terms(alloc, constraint.terms())? {
            Some(terms) => Ok(Some(ShortSum {
                terms,
                degree: degree as u32,
            })),
            None => Ok(None),
        }
    }

    /// Returns the constraint, written out.
    pub(crate) fn read(&self, alloc: Global) -> Result<Linear, NoMemory>
        ensures { IfOk result (λ c. c ≡ self.now) }
    {
        let terms = wide_terms(alloc, &self.terms)?;
        Ok(Linear::from_parts(terms, self.degree as u128))
    }

    /// Returns the terms, in eight bytes each.
    pub(crate) fn terms(&self) -> &[ShortTerm]
        ensures { result.now ≡ self.now.terms }
    {
        self.terms.as_slice()
    }

    /// True if some term is of the variable.
    pub(crate) fn has_var(&self, var: Var) -> bool
        ensures { result ≡ list_any (is_of var) self.now.terms }
    {
        self.terms.iter().any(|term| term.var() == var)
    }
}
