//! Constraints under a substitution.
ghost use Rattle.std.specs.Prelude.{◌≡◌, ◌<◌, ◌^◌, is_none, filter, sum_by, IfOk};
ghost use Rattle.std.specs.List.{list_any};
ghost use Rattle.pb_norm.specs.inner.Kept.{on_weight};
ghost use Rattle.pb_steps.specs.Substitutions.{set_value, is_unset, is_made_true, names_set, restriction};
ghost use Rattle.pb_operations.specs.inner.Sides.{gained, is_set};

use pb_base::{Lit, NoMemory, Term, Var};
use pb_norm::Linear;
use pb_steps::Set;
use std::alloc::Global;

// The value that a variable is given.
fn set_value(sets: &[Set], var: Var) -> Option<bool>
    ensures { result ≡ set_value sets.now var }
{
    for set in sets {
        if set.var == var {
            return Some(set.value);
        }
    }
    None
}

fn is_unset(sets: &[Set], var: Var) -> bool
    ensures { result ≡ is_none (set_value sets.now var) }
{
    set_value(sets, var).is_none()
}

// Whether a literal becomes true.
fn is_made_true(sets: &[Set], lit: Lit) -> bool
    ensures { result ≡ is_made_true sets.now lit }
{
    set_value(sets, lit.var).unwrap_or(!lit.positive) == lit.positive
}

// Whether some term has a variable that is set.
fn name_set(sets: &[Set], terms: &[Term]) -> bool
    ensures { result ≡ list_any (on_weight (is_set sets.now)) terms.now }
{
    terms.iter().any(|term| !is_unset(sets, term.lit.var))
}

/// Whether the constraint has a variable that is set.
pub fn names_set(sets: &[Set], constraint: &Linear) -> bool
    // The answer is true iff the constraint has a variable that is set.
    ensures { result ≡ names_set sets.now constraint.now }
{
    name_set(sets, constraint.terms())
}

// Drops the terms of variables that are set.
fn keep_unset(terms: &mut Vec<Term>, sets: &[Set])
    ensures { terms.new.items ≡ filter (on_weight (is_unset sets.now)) terms.old.items }
{
    terms.retain(|term| is_unset(sets, term.lit.var));
}

// The coefficients of the literals that become true.
fn gained(sets: &[Set], terms: &[Term]) -> u128
    requires { sum_by (on_weight (gained sets.now)) terms.now < 2 ^ 128 }
    ensures { result ≡ sum_by (on_weight (gained sets.now)) terms.now }
{
    terms
        .iter()
        .map(|term| if is_made_true(sets, term.lit) {
            term.weight()
        } else {
            0
        })
        .sum()
}

/// The degree of what is left of the constraint under a substitution.
pub fn degree_left(sets: &[Set], constraint: &Linear) -> u128
    ensures { result ≡ (restriction sets.now constraint.now).degree }
{
    let gained = gained(sets, constraint.terms());
    constraint.degree().saturating_sub(gained)
}

/// What is left of the constraint under a substitution: no set variable, and the degree loses the coefficients of literals that become true.
/// It takes no memory.
pub fn restricted(sets: &[Set], constraint: Linear) -> Linear
    ensures { result ≡ restriction sets.now constraint }
{
    let degree = degree_left(sets, &constraint);
    let mut terms = constraint.into_terms();
    keep_unset(&mut terms, sets);
    Linear::from_parts(terms, degree)
}

/// The same of a constraint that stays.
pub fn restriction(alloc: Global, sets: &[Set], constraint: &Linear) -> Result<Linear, NoMemory>
    // The constraint is the one under the substitution.
    ensures { IfOk result (λ made. made ≡ restriction sets.now constraint.now) }
{
    let copy = constraint.copy(alloc)?;
    Ok(restricted(sets, copy))
}
