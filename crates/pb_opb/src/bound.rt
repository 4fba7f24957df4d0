//! A bound on the objective of a problem.
ghost use Rattle.std.specs.Prelude.{◌≡◌, ◌≤◌, ◌<◌, ◌^◌, [], IfOk, IsErrOf, OnOk, length, unwrap_or};
ghost use Rattle.pb_base.specs.Problems.{magnitude, IsWithinLimits};
ghost use Rattle.pb_opb.specs.Bounded.{bound_weight, bounded, BoundKeepsSmaller};
ghost use Rattle.pb_opb.specs.declared.bound.BoundFault.TheVariants as fault;

use crate::stage::WEIGHT;
use pb_base::{NoMemory, Problem, Relation, Term, Terms};
use std::alloc::Global;
use thiserror::Error;

/// The reason why a problem gets no bound on its objective.
#[derive(Clone, Copy, Debug, Error)]
pub enum BoundFault {
    /// The absolute values of the bound and of the objective's coefficients add up to 2^100 or more.
    #[error("the bound and the coefficients add up to too much")]
    Weight,
    /// Memory was refused.
    #[error("out of memory")]
    NoMemory,
}

impl From<NoMemory> for BoundFault {
    ghost from_gives = { λ _ f. f ≡ fault.NoMemory };

    // Lets `?` pass on that memory ran out.
    fn from(_error: NoMemory) -> BoundFault {
        BoundFault::NoMemory
    }
}

// Returns the terms of the objective; none if there is no objective.
fn terms_in(objective: &Option<Terms>) -> &[Term]
    ensures { result.now ≡ unwrap_or objective.now [] }
{
    match objective {
        Some(terms) => terms.as_slice(),
        None => &[],
    }
}

// Returns the absolute values of the coefficients, added up.
fn magnitude_of(terms: &[Term]) -> u128
    requires { magnitude terms.now < 2 ^ 128 }
    ensures { result ≡ magnitude terms.now }
{
    terms.iter().map(|term| term.weight()).sum()
}

/// Adds one more statement after the others: that the objective is at most the bound. A problem without an objective has the empty sum.
///
/// ```text
/// min: +2 x1 +3 x2 ; +1 x1 +1 x2 >= 1 ;     with the bound 4, after the one statement: +2 x1 +3 x2 <= 4
/// +1 x1 >= 1 ;                              with the bound -1, after the one statement: an empty sum <= -1
/// ```
pub fn bounded(_alloc: Global, problem: Problem, bound: i128) -> Result<Problem, BoundFault>
    requires within { IsWithinLimits problem }
    requires room { length problem.statements ≤ 2 ^ 24 }

    // The problem has one more statement, that its objective is at most the bound; the objective is the empty sum if there is none.
    ensures ok { IfOk result (λ p. p ≡ bounded problem bound) }
    // The problem is within what the crates above require.
    ensures within { IfOk result IsWithinLimits }
    // A problem is answered only if the absolute values of the objective's coefficients and of the bound add up to less than 2^100.
    ensures light { OnOk result (bound_weight problem bound < 2 ^ 100) }
    // `Weight` is answered only if they add up to 2^100 or more.
    ensures heavy { IsErrOf result fault.Weight → 2 ^ 100 ≤ bound_weight problem bound }
{
    let mut problem = problem;
    let terms = terms_in(&problem.objective);
    if magnitude_of(terms) + bound.unsigned_abs() >= WEIGHT {
        return Err(BoundFault::Weight);
    }
    problem.statements.push(terms, Relation::AtMost, bound)?;
    Ok(problem)
}

/// The law that the solutions of a bounded problem are those under which the objective is at most the bound.
pub fn bound_keeps_smaller()
    ensures { BoundKeepsSmaller }
{}
