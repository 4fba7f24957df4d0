//! Lists of constraints.
//!
//! A list has the form in which the engine stores constraints: a clause is a slot, and its literals in one flat array; any other
//! constraint has memory of its own, which is given back when it is removed. So what is read from a file enters the engine without a
//! copy, and nothing is held twice. A clause of three literals takes about 100 bytes, its counters and its part of the index
//! included.
ghost use Rattle.std.specs.Prelude.{◌≡◌, ◌≤◌, ◌<◌, ◌^◌, ◌++◌, ◌∷◌, [], Some, if◌then◌else◌, IfOk, IsErr, IsTrue, OnOk, All, length, map};
ghost use Rattle.pb_norm.specs.ClauseForm.{clause_form};
ghost use Rattle.pb_norm.specs.Constraints.{IsAscending, IsLinear};
ghost use Rattle.pb_unit.specs.inner.Slots.{unit};
ghost use Rattle.pb_unit.specs.Reaching.{IsUpTo, OfConstraint};
ghost use Rattle.pb_unit.specs.Reads.{lit_count, IsRead};

use crate::places::Places;
use pb_base::{Clause, Lit, NoMemory, Term};
use pb_norm::{Linear, clause_form};
use std::alloc::Global;
use std::marker::Model;

/// Constraints in order. The literals of all clauses stand in one list, so that a clause takes little.
pub struct Constraints {
    alloc: Global,
    places: Places,
}

// Written out: one call in the proof of a function that owns it.
impl Drop for Constraints {
    fn drop(self) {
        let Constraints {
            alloc: _,
            places: _,
        } = self;
    }
}

impl Model for Constraints {
    ghost use Rattle.std.specs.Prelude.{List};
    ghost use Rattle.pb_norm.specs.Constraints.{Constraint};
    ghost use Rattle.pb_unit.specs.States.{standing};
    ghost use Rattle.pb_unit.specs.Reads.{IsWhole};

    ghost Value = { List Constraint };

    ghost view = { λ l. standing l.places };

    ghost invariant = { λ l. IsWhole l.places };
}

// Whether the variable of each literal is below the next one's.
fn ascend(lits: &[Lit]) -> bool
    ensures { IsTrue result → IsAscending (map unit lits.now) }
{
    lits.is_sorted_by(|lit, next| lit.var < next.var)
}

impl Constraints {
    /// No constraint.
    pub fn new(alloc: Global) -> Constraints
        ensures { result ≡ [] }
    {
        Constraints {
            alloc,
            places: Places::new(alloc),
        }
    }

    /// The constraints of a vector.
    pub fn from_vec(alloc: Global, constraints: Vec<Linear>) -> Result<Constraints, NoMemory>
        // The list is the vector's constraints.
        ensures { IfOk result (λ list. list ≡ constraints.items) }
    {
        let mut list = Constraints::new(alloc);
        for constraint in constraints {
            list.push(&constraint)?;
        }
        Ok(list)
    }

    /// Adds a constraint at the end.
    pub fn push(&mut self, constraint: &Linear) -> Result<(), NoMemory>
        // On success the constraint is at the end.
        ensures ok { OnOk result (self.new ≡ self.old ++ constraint.now ∷ []) }
        // After `NoMemory` the list is as it was.
        ensures refused { IsErr result → self.new ≡ self.old }
    {
        let _ = constraint.degree();
        if !self.places.push(self.alloc, constraint) {
            return Err(NoMemory);
        }
        Ok(())
    }

    // Adds the form of a clause at the end, where the variables of its literals ascend and there is room.
    fn push_ascending(&mut self, clause: &[Lit]) -> bool
        ensures { self.new ≡ (if result then self.old ++ clause_form clause.now ∷ [] else self.old) }
    {
        ascend(clause) && self.places.push_clause(clause)
    }

    /// Adds the form of a clause at the end. Where the variables of its literals ascend, as mostly, they are copied as they are.
    pub fn push_clause(&mut self, clause: &[Lit]) -> Result<(), NoMemory>
        // On success the clause's form is at the end.
        ensures ok { OnOk result (self.new ≡ self.old ++ clause_form clause.now ∷ []) }
        // After `NoMemory` the list is as it was.
        ensures refused { IsErr result → self.new ≡ self.old }
    {
        if self.push_ascending(clause) {
            return Ok(());
        }
        let copy = Clause::from_vec(Vec::from_slice(self.alloc, clause)?);
        let form = clause_form(self.alloc, &copy)?;
        self.push(&form)
    }

    /// How many constraints there are.
    pub fn len(&self) -> usize
        // The number is that of the constraints.
        ensures { result ≡ length self.now }
    {
        self.places.len()
    }

    /// How many literals the clauses among them have: no more than all of them.
    pub fn clause_lits(&self) -> usize
        // The number is at most that of all terms.
        ensures { result ≤ lit_count self.now }
    {
        self.places.clause_lits()
    }

    // The greatest variable of them, or a number that is no less.
    pub(crate) fn greatest(&self, least: u32) -> u32
        requires { least < 2 ^ 31 }
        ensures within { All (OfConstraint (IsUpTo result)) self.now }
        ensures no_less { least ≤ result }
        ensures few { result < 2 ^ 31 }
    {
        self.places.greatest(least)
    }

    /// The terms of the constraint at a place, which are written over others, and its degree.
    pub fn read(&self, place: usize, terms: &mut Vec<Term>) -> Result<u128, NoMemory>
        requires { place < length self.now }
        // The terms and the degree are those of the constraint with this index.
        ensures { IfOk result (λ degree. IsRead self.now place terms.new.items degree) }
    {
        let degree = self.places.read(place, terms)?;
        Ok(degree)
    }

    // The constraints by their places, as they are kept.
    pub(crate) fn places(&self) -> &Places
        ensures places { result.now ≡ map Some self.now }
        ensures linear { All IsLinear self.now }
    {
        &self.places
    }

    // The constraints by their places.
    pub(crate) fn into_places(self) -> Places
        ensures { result ≡ map Some self }
    {
        let Constraints { alloc: _, places } = self;
        places
    }
}
