//! Assumed literals, and what constraints make of them.
//!
//! After a conflict each further `propagate` answers `Conflict` at once, until `reset`: assumptions are only added meanwhile, and a
//! conflict of fewer assumed literals is one of more (`a_conflict_stays`). What was reached remains true: without the clauses `kept`
//! and `shown`, a body that forgets it at a conflict would meet the contract.
//!
//! The contract speaks of reached lists of literals, in any order. So rounds over all constraints would meet it too; counters, index
//! and queue are a matter of this crate alone.
ghost use Rattle.std.specs.Prelude.{◌≡◌, ◌≤◌, ◌<◌, if◌then◌else◌, not, true, is_some, IfOk, IsErr};
ghost use Rattle.pb_norm.specs.Constraints.{HasVarsWithin, AreVarsWithin};
ghost use Rattle.pb_base.specs.Literals.{negated, is_among};
ghost use Rattle.pb_unit.specs.States.{IsReached, IsFree, at_place, started, assumed, cleared, added, removed, slack_at};
ghost use Rattle.pb_unit.specs.Outcomes.{AnswersOf};
ghost use Rattle.pb_unit.specs.Ends.{Ends};
ghost use Rattle.pb_base.specs.declared.literal.Lit.{Lit};

use crate::constraints::Constraints;
use crate::garbage::Garbage;
use crate::kept::room_of;
use crate::queue::Queue;
use crate::rounds::Rounds;
use crate::trail::Trail;
use pb_base::{Lit, NoMemory};
use pb_norm::Linear;
use std::alloc::Global;
use std::marker::Model;

/// How propagation ended.
#[derive(Clone, Copy)]
pub enum Outcome {
    /// The slack of the constraint at the place is negative. Places count from 0.
    Conflict { place: u64 },
    /// Nothing more is reached.
    Fixed,
}

/// Constraints, literals assumed beside them, and the literals that unit propagation has reached.
pub struct Engine {
    alloc: Global,
    queue: Queue,
    assumed: Trail,
    garbage: Garbage,
}

// Written out: one call in the proof of a function that owns it.
impl Drop for Engine {
    fn drop(self) {
        let Engine {
            alloc: _,
            queue: _,
            assumed: _,
            garbage: _,
        } = self;
    }
}

impl Model for Engine {
    ghost use Rattle.pb_unit.specs.States.{EngineState};
    ghost use Rattle.pb_unit.specs.Counters.{IsKept, state_of};

    ghost Value = { EngineState };

    ghost view = { λ e. state_of e.queue e.assumed.lits };

    ghost invariant = { λ e. IsKept e.assumed.vars e.queue.lists e.queue.kept.items e.queue.tight.items e.queue.counted e.queue.phase (state_of e.queue e.assumed.lits) };
}

impl Engine {
    /// An engine over constraints whose variables are at most `vars`. Nothing is assumed. All memory that later calls need is taken here.
    pub fn new(alloc: Global, vars: u32, constraints: Vec<Linear>) -> Result<Engine, NoMemory>
        requires within { AreVarsWithin vars constraints.items }
        // The engine has the vector's constraints at the places 0, 1, .., and nothing is assumed or true.
        ensures start { IfOk result (λ engine. engine ≡ started vars constraints.items) }
    {
        Engine::over(alloc, vars, Constraints::from_vec(alloc, constraints)?)
    }

    /// The same over a list, which the engine keeps as it is: no constraint is copied.
    pub fn over(alloc: Global, vars: u32, constraints: Constraints) -> Result<Engine, NoMemory>
        requires within { AreVarsWithin vars constraints }
        // The engine has the list's constraints at the places 0, 1, .., and nothing is assumed or true.
        ensures start { IfOk result (λ engine. engine ≡ started vars constraints) }
    {
        let places = constraints.into_places();
        let count = places.len();
        let assumed = Trail::new(alloc, vars)?;
        let queue = Queue::over(alloc, vars, places)?;
        Ok(Engine {
            alloc,
            queue,
            assumed,
            garbage: Garbage::new(alloc, count),
        })
    }

    /// Whether a literal holds.
    pub fn holds(&self, lit: Lit) -> bool
        // The answer is true iff the literal is true.
        ensures answer { result ≡ is_among self.now.held lit }
        // The true literals are one reached list, no two of them opposite.
        ensures reached { IsReached self.now }
    {
        self.queue.held.holds(&lit)
    }

    /// Assumes a literal, unless its negation holds.
    pub fn assume(&mut self, lit: Lit) -> bool
        requires within { lit.var ≤ self.old.vars }
        // The answer is false iff the negation is true.
        ensures answer { result ≡ not (is_among self.old.held (negated lit)) }
        // If the answer is false, nothing changed; else the literal is assumed, and true.
        ensures after { self.new ≡ (if result then assumed lit self.old else self.old) }
        // The true literals are one reached list, with each assumed literal in it.
        ensures reached { IsReached self.new }
    {
        if self.queue.held.holds(&lit.not()) {
            return false;
        }
        self.assumed.add(&lit);
        self.queue.held.add(&lit);
        true
    }

    /// Has all literals hold that are reached, or finds a conflict.
    pub fn propagate(&mut self) -> Outcome
        // Only which literals are true may change.
        ensures same { self.new ≡ record self.old { held = self.new.held } }
        // `Conflict` is answered iff the live constraints and the assumed literals have one. After `Fixed` a literal is true iff it is in
        // some reached list.
        ensures answer { AnswersOf self.new result }
        // At a conflict the constraint at the place has a negative slack under the true literals.
        ensures shown { Ends self.new.places self.new.held result }
        // What was true remains true.
        ensures kept { (l : Lit) → is_among self.old.held l ≡ true → is_among self.new.held l ≡ true }
        // The true literals are one reached list, with each assumed literal in it.
        ensures reached { IsReached self.new }
    {
        self.queue.propagate()
    }

    /// Takes all assumptions back.
    pub fn reset(&mut self)
        // Nothing is assumed or true.
        ensures after { self.new ≡ cleared self.old }
    {
        self.queue.rewind();
        self.assumed.clear();
        self.queue.held.clear();
    }

    /// Adds a constraint, and takes all assumptions back. Its place is one that was free.
    pub fn add(&mut self, constraint: &Linear) -> Result<u64, NoMemory>
        requires within { HasVarsWithin self.old.vars constraint.now.terms }
        // On success the constraint is live at a place that was free, and nothing is assumed or true.
        ensures ok { IfOk result (λ place. IsFree self.old place × (self.new ≡ added place constraint.now self.old)) }
        // After `NoMemory` nothing changed.
        ensures refused { IsErr result → self.new ≡ self.old }
    {
        let copy = constraint.copy(self.alloc)?;
        if !self.garbage.reserve(self.queue.places.len()) {
            return Err(NoMemory);
        }
        self.queue.rewind();
        let place = self
            .garbage
            .free_place(&self.queue.places, &self.queue.kept);
        if !self.queue.put(self.alloc, place, copy) {
            return Err(NoMemory);
        }
        self.garbage.take(place);
        self.assumed.clear();
        self.queue.held.clear();
        Ok(place as u64)
    }

    /// Removes what stands at the place, and takes all assumptions back. Whether there was a constraint.
    pub fn remove(&mut self, place: u64) -> bool
        // The answer is true iff a constraint was live at the place.
        ensures answer { result ≡ is_some (at_place self.old.places place) }
        // If it was, none is live there any more, and nothing is assumed or true; else nothing changed.
        ensures after { self.new ≡ (if result then removed place self.old else self.old) }
    {
        let place = place as usize;
        if !self.queue.places.stands(place) {
            return false;
        }
        self.queue.rewind();
        self.assumed.clear();
        self.queue.held.clear();
        self.queue.let_go(&mut self.garbage, place);
        true
    }

    /// By how much what the constraint at the place can still add is above its degree.
    pub fn slack(&self, place: u64) -> Option<i128>
        // The number is the slack of the constraint at the place under the true literals; there is none iff none is live there.
        ensures { result ≡ slack_at self.now place }
    {
        let place = place as usize;
        let told = self.queue.counted == self.queue.held.len();
        let left = room_of(&self.queue.kept, place);
        self.queue.places.slack(place, left, told, &self.queue.held)
    }

    /// The literals that hold. The constraints are let go.
    pub fn into_held(self) -> Rounds
        // The literals are those that are true.
        ensures { result ≡ record { vars = self.vars; lits = self.held } }
    {
        let Engine {
            alloc: _,
            queue,
            assumed: _,
            garbage: _,
        } = self;
        Rounds::of(queue.into_held())
    }
}
