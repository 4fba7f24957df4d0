//! A visit to a constraint.
ghost use Rattle.std.specs.Prelude.{◌≡◌, ◌≤◌, ◌<◌, ◌-◌, All, map};
ghost use Rattle.pb_norm.specs.Constraints.{weighted, weights, HasVarsWithin};
ghost use Rattle.pb_unit.specs.inner.Slots.{unit, clause_of};
ghost use Rattle.pb_unit.specs.Steps.{with_needed, with_all_needed, VisitShort, VisitJoined};

use crate::trail::Trail;
use pb_base::{Lit, Term};
use pb_norm::Linear;

// Has the term's literal hold, where it is needed.
fn join(term: &Term, slack: u128, held: &mut Trail)
    requires { term.now.lit.var ≤ held.old.vars }
    ensures { held.new ≡ record held.old { lits = with_needed slack (weighted term.now) held.old.lits } }
{
    if term.weight() > slack && !held.holds(&term.lit) && !held.holds(&term.lit.not()) {
        held.push(&term.lit);
    }
}

// Has each literal hold that is needed.
fn join_all(terms: &[Term], slack: u128, held: &mut Trail)
    requires { HasVarsWithin held.old.vars (weights terms.now) }
    ensures { held.new ≡ record held.old { lits = with_all_needed slack (weights terms.now) held.old.lits } }
{
    for term in terms {
        join(term, slack, held);
    }
}

// Has what a constraint needs hold, or says that its room is too little.
pub(crate) fn visit(constraint: &Linear, room: u128, held: &mut Trail) -> bool
    requires { HasVarsWithin held.old.vars constraint.now.terms }
    ensures vars { held.new.vars ≡ held.old.vars }
    ensures short { VisitShort result room constraint.now held.old held.new }
    ensures joined { VisitJoined result room constraint.now held.old.lits held.new.lits }
{
    let degree = constraint.degree();
    if room < degree {
        return false;
    }
    join_all(constraint.terms(), room - degree, held);
    true
}

// Has a literal with the coefficient 1 hold, where it is needed.
fn join_unit(lit: &Lit, slack: u128, held: &mut Trail)
    requires { lit.now.var ≤ held.old.vars }
    ensures { held.new ≡ record held.old { lits = with_needed slack (unit lit.now) held.old.lits } }
{
    if 1 > slack && !held.holds(lit) && !held.holds(&lit.not()) {
        held.push(lit);
    }
}

// Has each literal of a clause hold that is needed.
fn join_units(lits: &[Lit], slack: u128, held: &mut Trail)
    requires { All (λ l. l.var ≤ held.old.vars) lits.now }
    ensures { held.new ≡ record held.old { lits = with_all_needed slack (map unit lits.now) held.old.lits } }
{
    for lit in lits {
        join_unit(lit, slack, held);
    }
}

// Has what a clause needs hold, or says that its room is too little.
pub(crate) fn visit_clause(lits: &[Lit], room: u128, held: &mut Trail) -> bool
    requires { All (λ l. l.var ≤ held.old.vars) lits.now }
    ensures vars { held.new.vars ≡ held.old.vars }
    ensures short { VisitShort result room (clause_of lits.now) held.old held.new }
    ensures joined { VisitJoined result room (clause_of lits.now) held.old.lits held.new.lits }
{
    if room < 1 {
        return false;
    }
    join_units(lits, room - 1, held);
    true
}
