//! Slacks under the literals that hold.
ghost use Rattle.std.specs.Prelude.{◌≡◌, ◌≤◌, ◌<◌, ◌^◌, ◌-ℤ◌, cond, pos, map, IsTrue};
ghost use Rattle.pb_base.specs.Literals.{negated, is_among};
ghost use Rattle.pb_norm.specs.Constraints.{weight, weighted, weights};
ghost use Rattle.pb_norm.specs.Propagation.{room};
ghost use Rattle.pb_unit.specs.States.{slack_of};
ghost use Rattle.pb_unit.specs.inner.Slots.{unit, clause_of};

use crate::trail::Trail;
use pb_base::{Lit, Term};
use pb_norm::Linear;

// What a term can still add.
fn open_weight(term: &Term, held: &Trail) -> u128
    ensures { result ≡ cond (is_among held.now.lits (negated term.now.lit)) 0 (weighted term.now).coef }
{
    if held.holds(&term.lit.not()) {
        0
    } else {
        term.weight()
    }
}

// The sum of what the terms can still add.
fn room(terms: &[Term], held: &Trail) -> u128
    requires { room held.now.lits (weights terms.now) < 2 ^ 128 }
    ensures { result ≡ room held.now.lits (weights terms.now) }
{
    terms.iter().map(|term| open_weight(term, held)).sum()
}

// What the terms of a constraint can still add.
pub(crate) fn room_under(constraint: &Linear, held: &Trail) -> u128
    ensures { result ≡ room held.now.lits constraint.now.terms }
{
    room(constraint.terms(), held)
}

// The room that is kept, if all literals that hold were told, else anew.
fn room_now(constraint: &Linear, kept: u128, told: bool, held: &Trail) -> u128
    requires { IsTrue told → kept ≡ room held.now.lits constraint.now.terms }
    ensures value { result ≡ room held.now.lits constraint.now.terms }
    ensures fits { room held.now.lits constraint.now.terms ≤ 2 ^ 126 }
{
    let _ = constraint.degree();
    if told {
        return kept;
    }
    room_under(constraint, held)
}

// By how much a room is above a degree.
fn above(left: u128, degree: u128) -> i128
    requires left { left ≤ 2 ^ 126 }
    requires degree { degree ≤ 2 ^ 126 }
    ensures { result ≡ pos left -ℤ pos degree }
{
    left as i128 - degree as i128
}

// The slack of a constraint. The room that is kept is the room, if all literals that hold were told.
pub(crate) fn slack_of(constraint: &Linear, kept: u128, told: bool, held: &Trail) -> i128
    requires { IsTrue told → kept ≡ room held.now.lits constraint.now.terms }
    ensures { result ≡ slack_of held.now.lits constraint.now }
{
    let left = room_now(constraint, kept, told, held);
    above(left, constraint.degree())
}

// What a literal with the coefficient 1 can still add.
fn open_unit(lit: &Lit, held: &Trail) -> u128
    ensures { result ≡ cond (is_among held.now.lits (negated lit.now)) 0 1 }
{
    if held.holds(&lit.not()) { 0 } else { 1 }
}

// The sum of what the literals of a clause can still add.
pub(crate) fn open_units(lits: &[Lit], held: &Trail) -> u128
    requires { room held.now.lits (map unit lits.now) < 2 ^ 128 }
    ensures { result ≡ room held.now.lits (map unit lits.now) }
{
    lits.iter().map(|lit| open_unit(lit, held)).sum()
}

// Whether two literals of a clause can still be true: then it needs nothing.
pub(crate) fn are_two_open(lits: &[Lit], held: &Trail) -> bool
    ensures { IsTrue result → 2 ≤ room held.now.lits (map unit lits.now) }
{
    let mut open: u32 = 0;
    for lit in lits {
        open += open_unit(lit, held) as u32;
        if open > 1 {
            return true;
        }
    }
    false
}

// The room that is kept, if all literals that hold were told, else anew.
fn room_of_clause(lits: &[Lit], kept: u128, told: bool, held: &Trail) -> u128
    requires told { IsTrue told → kept ≡ room held.now.lits (map unit lits.now) }
    requires narrow { weight (map unit lits.now) ≤ 2 ^ 126 }
    ensures value { result ≡ room held.now.lits (map unit lits.now) }
{
    if told {
        return kept;
    }
    open_units(lits, held)
}

// The same of a clause.
pub(crate) fn slack_of_clause(lits: &[Lit], kept: u128, told: bool, held: &Trail) -> i128
    requires told { IsTrue told → kept ≡ room held.now.lits (map unit lits.now) }
    requires narrow { weight (map unit lits.now) ≤ 2 ^ 126 }
    ensures { result ≡ slack_of held.now.lits (clause_of lits.now) }
{
    above(room_of_clause(lits, kept, told, held), 1)
}
