//! Causes of a denial that are seen without propagation.
ghost use Rattle.std.specs.Prelude.{◌≡◌, ◌+◌, ◌-◌, ◌^◌, ◌≤◌, ℕ, All, IfOk, not, min, nat_lt, find};
ghost use Rattle.std.specs.Int.RustNames.{unsigned_abs};
ghost use Rattle.pb_base.specs.Problems.{magnitude};
ghost use Rattle.pb_steps.specs.Steps.{vars_of_terms};
ghost use Rattle.pb_norm.specs.Halves.{written};
ghost use Rattle.pb_norm.specs.Constraints.{HasVarsWithin};
ghost use Rattle.pb_steps.specs.Operations.{IsNarrow};
ghost use Rattle.pb_steps.specs.Allowed.{IsSlim};
ghost use Rattle.pb_steps.specs.Database.{is_live};

use crate::form::form_of;
use pb_base::{NoMemory, Term, Var};
use pb_database::Database;
use pb_norm::Linear;
use std::alloc::Global;

/// Returns the first variable of the terms that is above `vars`.
pub(crate) fn var_above(vars: u32, terms: &[Term]) -> Option<Var>
    ensures { result ≡ find (λ v. nat_lt vars v) (vars_of_terms terms.now) }
{
    for term in terms {
        if term.lit.index() > vars {
            return Some(term.lit.var);
        }
    }
    None
}

/// Returns the first id under which no constraint is live.
pub(crate) fn id_gone(db: &Database, ids: &[u64]) -> Option<u64>
    ensures { result ≡ find (λ id. not (is_live db.now.live id)) ids.now }
{
    for id in ids {
        if db.constraint_at(*id).is_none() {
            return Some(*id);
        }
    }
    None
}

// What sums of the numbers of written constraints stay below.
const LIMIT: u128 = 1 << 126;

// Returns the absolute values of the numbers, added up, but at most 2^128 - 1.
fn size(terms: &[Term], right: &i128) -> u128
    ensures { result ≡ min (magnitude terms.now + unsigned_abs right.now) (2 ^ 128 - 1) }
{
    let mut sum = right.unsigned_abs();
    for term in terms {
        sum = sum.saturating_add(term.weight());
    }
    sum
}

/// True if the numbers of a written constraint add up to less than 2^126.
pub(crate) fn is_slim(terms: &[Term], right: &i128) -> bool
    ensures { result ≡ nat_lt (magnitude terms.now + unsigned_abs right.now) (2 ^ 126) }
{
    size(terms, right) < LIMIT
}

/// Returns the constraint that is written, in normal form.
pub(crate) fn claim_of(alloc: Global, terms: &[Term], right: &i128) -> Result<Linear, NoMemory>
    requires { IsSlim terms.now right.now }
    ensures claim { IfOk result (λ c. c ≡ written terms.now right.now) }
    ensures narrow { IfOk result IsNarrow }
    ensures within { (vars : ℕ) → All (λ v. v ≤ vars) (vars_of_terms terms.now) → IfOk result (λ c. HasVarsWithin vars c.terms) }
{
    let claim = form_of(alloc, terms, right)?;
    Ok(claim)
}
