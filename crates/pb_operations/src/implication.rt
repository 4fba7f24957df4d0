//! What follows from a constraint term by term.
ghost use Rattle.std.specs.Prelude.{◌≡◌, ◌≤◌, ◌<◌, ◌^◌, drop, map, sum_by};
ghost use Rattle.pb_norm.specs.Constraints.{weights, weight, IsAscending};
ghost use Rattle.pb_norm.specs.Addition.{coef_of};
ghost use Rattle.pb_steps.specs.Operations.{implies, negation};
ghost use Rattle.pb_operations.specs.inner.Sides.{StartsFrom, SameFrom, exceeding, turned, turned_lit};

use pb_base::{Lit, Term, Var};
use pb_norm::Linear;

// The first place from one on where no earlier variable stands.
fn place_from(terms: &[Term], var: Var, from: usize) -> usize
    requires { IsAscending (weights terms.now) }
    ensures starts { StartsFrom var (drop result (weights terms.now)) }
    ensures same { SameFrom var (drop from (weights terms.now)) (drop result (weights terms.now)) }
{
    let mut place = from;
    'skipping: while place < terms.len() && terms[place].lit.var < var {
        place += 1;
    }
    place
}

// The coefficient of a literal where from a place on no earlier variable stands.
fn coef_at(terms: &[Term], lit: Lit, place: usize) -> u128
    requires ascending { IsAscending (weights terms.now) }
    requires starts { StartsFrom lit.var (drop place (weights terms.now)) }
    ensures { result ≡ coef_of (drop place (weights terms.now)) lit }
{
    if place >= terms.len() {
        return 0;
    }
    let term = &terms[place];
    if term.lit == lit { term.weight() } else { 0 }
}

// A literal, or its negation.
fn turned(lit: Lit, turn: bool) -> Lit
    ensures { result ≡ turned_lit turn lit }
{
    if turn { lit.not() } else { lit }
}

// By how much the coefficients are above those of the same literals, or of the opposite ones.
fn excess(terms: &[Term], others: &[Term], turn: bool) -> u128
    requires terms { IsAscending (weights terms.now) }
    requires others { IsAscending (weights others.now) }
    requires room { weight (weights terms.now) < 2 ^ 128 }
    ensures { result ≡ sum_by (exceeding (weights others.now)) (map (turned turn) (weights terms.now)) }
{
    let mut sum = 0;
    let mut place = 0;
    for term in terms {
        place = place_from(others, term.lit.var, place);
        sum += term
            .weight()
            .saturating_sub(coef_at(others, turned(term.lit, turn), place));
    }
    sum
}

// Whether a constraint follows from terms, of their literals or of the opposite ones, and a degree.
fn follows(terms: &[Term], turn: bool, degree: u128, other: &Linear) -> bool
    requires ascending { IsAscending (weights terms.now) }
    requires room { weight (weights terms.now) ≤ 2 ^ 126 }
    ensures { result ≡ implies (record { terms = map (turned turn) (weights terms.now); degree = degree }) other.now }
{
    if other.degree() == 0 {
        return true;
    }
    let excess = excess(terms, other.terms(), turn);
    other.degree() + excess <= degree
}

/// Whether the second constraint follows from the first one term by term (syntactic implication, as in VeriPB): the degree that is
/// left when each coefficient above the other's is given away is enough. Time is linear in both.
pub fn implies(constraint: &Linear, other: &Linear) -> bool
    // The answer is true iff the second constraint follows term by term.
    ensures { result ≡ implies constraint.now other.now }
{
    follows(constraint.terms(), false, constraint.degree(), other)
}

/// Whether the second constraint follows from the negation of the first one term by term. The negation is not made for that.
pub fn negation_implies(constraint: &Linear, other: &Linear) -> bool
    // The answer is true iff the second constraint follows term by term from the negation of the first.
    ensures { result ≡ implies (negation constraint.now) other.now }
{
    let degree = (constraint.weight() + 1).saturating_sub(constraint.degree());
    follows(constraint.terms(), true, degree, other)
}
