//! The rules of cutting planes (Cook, Coullard and Turán 1987; Gocht et al. 2022): constraints made of constraints, each in normal form again.
//!
//! A line of a diagram weakens a dozen variables out of a sum of hundreds of terms, and to close the gap after each was a fifth of a
//! check. So two weakenings or more are one pass (`weakenings`): each term is found by binary search, its coefficient becomes 0, and
//! the terms with 0 are dropped at the end. The variables may come in any order, and more than once; the contract is that of the
//! operations one after another.
ghost use Rattle.std.specs.Prelude.{◌≡◌, ◌<◌, ◌≤◌, ◌^◌, ◌*◌, nat_lt, IfOk};
ghost use Rattle.pb_norm.specs.Constraints.{constraint_of, weight, weights, AreUnsigned, AllPositive, IsAscending};
ghost use Rattle.pb_norm.specs.Addition.{sum_of};
ghost use Rattle.pb_steps.specs.Operations.{is_narrow, IsNarrow, axiom_of, multiple, division, saturation, weakening, negation};
ghost use Rattle.pb_operations.specs.Room.{fitting};
ghost use Rattle.pb_operations.specs.Weakenings.{weakened};

use crate::join::join;
use crate::terms;
use pb_base::{Lit, NoMemory, Term, Var};
use pb_norm::{Linear, weight_of};
use pb_steps::PolOp;
use std::alloc::Global;

// What the sum of the coefficients, and the degree, of a constraint stay below.
const LIMIT: u128 = 1 << 126;

// The parts as a constraint, where they have room.
fn within_width(terms: Vec<Term>, degree: u128) -> Option<Linear>
    requires unsigned { AreUnsigned terms.items }
    requires positive { AllPositive (weights terms.items) }
    requires ascending { IsAscending (weights terms.items) }
    requires sum { weight (weights terms.items) < 2 ^ 128 }
    ensures { result ≡ fitting (constraint_of terms.items degree) }
{
    if weight_of(&terms) < LIMIT && degree < LIMIT {
        Some(Linear::from_parts(terms, degree))
    } else {
        None
    }
}

/// The sum of two constraints, opposite literals taken from each other, or None where its numbers reach 2^126.
pub fn plus(alloc: Global, left: &Linear, right: &Linear) -> Result<Option<Linear>, NoMemory>
    requires left { IsNarrow left.now }
    requires right { IsNarrow right.now }
    // The constraint is the sum, or None iff the sum of its coefficients or its degree is 2^126 or more.
    ensures { IfOk result (λ made. made ≡ fitting (sum_of left.now right.now)) }
{
    let joined = join(alloc, left.terms(), right.terms())?;
    let degree = (left.degree() + right.degree()).saturating_sub(joined.cancelled);
    Ok(within_width(joined.terms, degree))
}

/// The constraint that a literal is at least 0, which always holds.
pub fn axiom(alloc: Global, lit: Lit) -> Result<Linear, NoMemory>
    // The constraint is the literal's axiom.
    ensures { IfOk result (λ made. made ≡ axiom_of lit) }
{
    let terms = vec![in alloc; Term::weighing(1, lit)]?;
    Ok(Linear::from_parts(terms, 0))
}

// Whether a number times a factor stays below the limit.
fn has_room(number: u128, factor: u128) -> bool
    requires { 0 < factor }
    ensures { result ≡ nat_lt (factor * number) (2 ^ 126) }
{
    number <= (LIMIT - 1) / factor
}

#[tactic(auto, using(crate::proofs::Parts::weight_scaled))]
fn has_room_for_multiple(constraint: &Linear, factor: u128) -> bool
    requires { 0 < factor }
    ensures { result ≡ is_narrow (multiple factor constraint.now) }
{
    has_room(constraint.weight(), factor) && has_room(constraint.degree(), factor)
}

/// The constraint with all numbers multiplied, or None where they reach 2^126. No product is made before that is known.
pub fn multiple(
    alloc: Global,
    constraint: &Linear,
    factor: u128,
) -> Result<Option<Linear>, NoMemory>
    requires { 0 < factor }
    // The constraint is the multiple, or None iff the sum of its coefficients or its degree is 2^126 or more.
    ensures { IfOk result (λ made. made ≡ fitting (multiple factor constraint.now)) }
{
    if !has_room_for_multiple(constraint, factor) {
        return Ok(None);
    }
    let terms = terms::scale_terms(alloc, constraint.terms(), factor)?;
    let degree = factor * constraint.degree();
    Ok(Some(Linear::from_parts(terms, degree)))
}

/// The constraint with all numbers divided, rounding up (Chvátal 1973).
pub fn division(alloc: Global, constraint: &Linear, divisor: u128) -> Result<Linear, NoMemory>
    requires divisor { 0 < divisor }
    requires small { divisor ≤ 2 ^ 127 }
    // The constraint is the quotient, all numbers rounded up.
    ensures { IfOk result (λ made. made ≡ division divisor constraint.now) }
{
    let terms = terms::shrunk(alloc, constraint.terms(), divisor)?;
    let degree = terms::quotient_up(divisor, constraint.degree());
    Ok(Linear::from_parts(terms, degree))
}

/// The constraint with each coefficient cut to the degree (Chai and Kuehlmann 2005).
pub fn saturation(alloc: Global, constraint: &Linear) -> Result<Linear, NoMemory>
    // The constraint is the saturated one.
    ensures { IfOk result (λ made. made ≡ saturation constraint.now) }
{
    let terms = terms::saturate_terms(alloc, constraint.terms(), constraint.degree())?;
    Ok(Linear::from_parts(terms, constraint.degree()))
}

/// The constraint without a variable: the degree loses its coefficient. It takes no memory.
pub fn weakening(constraint: Linear, var: Var) -> Linear
    // The constraint is the weakened one.
    ensures { result ≡ weakening var constraint }
{
    let degree = constraint.degree();
    let mut terms = constraint.into_terms();
    let lost = terms::take_var(&mut terms, var);
    Linear::from_parts(terms, degree.saturating_sub(lost))
}

/// The constraint weakened by each operation that weakens, one after the other; the others count for nothing. It takes no memory,
/// and goes through the terms once.
pub fn weakenings(constraint: Linear, ops: &[PolOp]) -> Linear
    // The constraint is the one that the weakenings give, one after another.
    ensures { result ≡ weakened ops.now constraint }
{
    let mut degree = constraint.degree();
    let mut terms = constraint.into_terms();
    let mut next = 0;
    for op in ops {
        if let PolOp::Weaken(var) = op {
            let lost = terms::take_coef(&mut terms, *var, &mut next);
            degree = degree.saturating_sub(lost);
        }
    }
    terms::keep_positive(&mut terms);
    Linear::from_parts(terms, degree)
}

/// The constraint that holds exactly where this one does not. Its degree may be 2^126.
pub fn negation(alloc: Global, constraint: &Linear) -> Result<Linear, NoMemory>
    requires { IsNarrow constraint.now }
    // The constraint is the negation.
    ensures { IfOk result (λ made. made ≡ negation constraint.now) }
{
    let terms = terms::opposites(alloc, constraint.terms())?;
    let degree = (constraint.weight() + 1).saturating_sub(constraint.degree());
    Ok(Linear::from_parts(terms, degree))
}
