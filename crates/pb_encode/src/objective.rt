//! The objective of a problem as an offset and costs of literals.
ghost use Rattle.std.specs.Prelude.{◌≡◌, ◌-ℤ◌, ◌^◌, pos, IfOk};
ghost use Rattle.pb_base.specs.Problems.{IsWithinLimits, objective_terms};
ghost use Rattle.pb_encode.specs.Costs.{objective_form, offset_of};

use pb_base::{NoMemory, Problem, Term, WEIGHT_BITS};
use pb_norm::{Linear, written};
use std::alloc::Global;

// What the objective is asked to reach, and never does.
const FAR: i128 = 1 << WEIGHT_BITS;

// Returns the terms of the objective; none if there is no objective.
fn objective_of(problem: &Problem) -> &[Term]
    ensures { result.now ≡ objective_terms problem.now }
{
    match &problem.objective {
        Some(terms) => terms.as_slice(),
        None => &[],
    }
}

/// Returns the objective of a problem in normal form, as a half that is never reached: its terms are what literals cost, and `offset_by`
/// reads the offset from the degree. `NoMemory` is the only fault.
pub fn objective_form(alloc: Global, problem: &Problem) -> Result<Linear, NoMemory>
    requires { IsWithinLimits problem.now }
    // The constraint is the objective in normal form, as a half that is never reached.
    ensures { IfOk result (λ form. form ≡ objective_form problem.now) }
{
    written(alloc, objective_of(problem), FAR)
}

/// Returns the offset that the costs are added to, given the objective in normal form.
///
/// ```text
/// min: +3 x1 -2 x2 ;     -2: x1 costs 3, ~x2 costs 2
/// ```
pub fn offset_by(objective: &Linear) -> i128
    // The number is what the costs are added to: 2^100 less the degree of the objective's normal form.
    ensures { result ≡ pos (2 ^ 100) -ℤ pos objective.now.degree }
{
    FAR - objective.degree() as i128
}

/// Returns the offset that the costs of a problem's objective are added to; 0 without an objective. `NoMemory` is the only fault.
pub fn offset_of(alloc: Global, problem: &Problem) -> Result<i128, NoMemory>
    requires { IsWithinLimits problem.now }
    ensures { IfOk result (λ offset. offset ≡ offset_of problem.now) }
{
    let objective = objective_form(alloc, problem)?;
    Ok(offset_by(&objective))
}
