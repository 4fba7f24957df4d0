//! Propagation over few constraints, which are shown one after the other.
ghost use Rattle.std.specs.Prelude.{◌≡◌, ◌≤◌, ◌<◌, [], List, All, Contains, length, IsNone, IfSome, IfOk};
ghost use Rattle.std.specs.Bool.{OnTrue, OnFalse};
ghost use Rattle.pb_base.specs.Literals.{is_among};
ghost use Rattle.pb_base.specs.declared.literal.Lit.{Lit};
ghost use Rattle.pb_norm.specs.Constraints.{Constraint, AreVarsWithin, HasVarsWithin};
ghost use Rattle.pb_norm.specs.Forced.{IsConsistent};
ghost use Rattle.pb_norm.specs.Propagation.{room};
ghost use Rattle.pb_unit.specs.Outcomes.{AnswersOf};
ghost use Rattle.pb_unit.specs.States.{given_over, IsReached};
ghost use Rattle.pb_unit.specs.Steps.{Advances, IsCalm};

use crate::constraints::Constraints;
use crate::engine::Outcome;
use crate::passes;
use crate::slack::room_under;
use crate::trail::Trail;
use crate::visit::visit;
use pb_base::{Lit, NoMemory};
use pb_norm::Linear;
use std::alloc::Global;
use std::marker::Model;

/// Literals that hold, and what constraints make of them that are shown one by one. No constraint is kept: where few are to be
/// shown, and that few times, this costs less than an engine.
pub struct Rounds {
    held: Trail,
}

// Written out: one call in the proof of a function that owns it.
impl Drop for Rounds {
    fn drop(self) {
        let Rounds { held: _ } = self;
    }
}

impl Model for Rounds {
    ghost use Rattle.pb_unit.specs.Trails.{Held};

    ghost Value = { Held };

    ghost view = { λ r. r.held };
}

impl Rounds {
    /// No literal holds, of variables up to a number. All memory that later calls need is taken here.
    pub fn new(alloc: Global, vars: u32) -> Result<Rounds, NoMemory>
        // No literal is true.
        ensures { IfOk result (λ rounds. rounds ≡ record { vars = vars; lits = [] }) }
    {
        let held = Trail::new(alloc, vars)?;
        Ok(Rounds { held })
    }

    // The literals that hold.
    pub(crate) fn of(held: Trail) -> Rounds
        ensures { result ≡ held }
    {
        Rounds { held }
    }

    /// Whether a literal holds.
    pub fn holds(&self, lit: Lit) -> bool
        // The answer is true iff the literal is true.
        ensures { result ≡ is_among self.now.lits lit }
    {
        self.held.holds(&lit)
    }

    /// How many literals hold.
    pub fn len(&self) -> usize
        // The number is that of the true literals.
        ensures { result ≡ length self.now.lits }
    {
        self.held.len()
    }

    /// Has no literal hold.
    pub fn clear(&mut self)
        // No literal is true.
        ensures { self.new ≡ record self.old { lits = [] } }
    {
        self.held.clear();
    }

    /// Has all literals hold that a constraint needs, or says that what its terms can still add is below its degree.
    pub fn show(&mut self, constraint: &Linear) -> bool
        requires within { HasVarsWithin self.old.vars constraint.now.terms }
        ensures vars { self.new.vars ≡ self.old.vars }
        // What becomes true is reached by propagation over each list that has the constraint, if what was true before is.
        ensures advances { (cs : List Constraint) (given : List Lit) → Contains cs constraint.now → Advances cs given self.old.lits self.new.lits }
        // After true the constraint needs no literal more.
        ensures calm { OnTrue result (IsCalm (room self.old.lits constraint.now.terms) self.new.lits constraint.now) }
        // After false its terms cannot reach its degree.
        ensures short { OnFalse result (room self.new.lits constraint.now.terms < constraint.now.degree) }
    {
        let left = room_under(constraint, &self.held);
        visit(constraint, left, &mut self.held)
    }

    /// Has the literals hold that given ones reach over constraints, as far as a few passes over these go. How that ended, if it
    /// did; else more may be reached than holds.
    pub fn settle(&mut self, constraints: &Constraints, given: &[Lit]) -> Option<Outcome>
        requires within { AreVarsWithin self.old.vars constraints.now }
        requires given { All (λ l. l.var ≤ self.old.vars) given.now }
        requires consistent { IsConsistent given.now }
        ensures vars { self.new.vars ≡ self.old.vars }
        // An outcome is the one that propagation over the list, from the given literals, has.
        ensures answer { IfSome result (AnswersOf (given_over constraints.now given.now self.new)) }
        // The true literals are one reached list from the given ones, whatever was true before.
        ensures reached { IsReached (given_over constraints.now given.now self.new) }
        // If there is no outcome, at least eight literals are true.
        ensures more { IsNone result → 8 ≤ length self.new.lits }
    {
        self.held.clear();
        passes::hold_all(given, &mut self.held);
        passes::settle(constraints.places(), &mut self.held)
    }
}
