//! Constraints that enter the engine late, when propagation needs them there.
//!
//! Most steps of a derivation are operations, or substitutions whose goals follow term by term. A constraint that is added and
//! deleted between two propagations over all constraints never needs to be in the engine. So the engine has the constraints of the
//! first ids, up to some id, and those after it enter, in the order of their ids, just before such a propagation.
//!
//! A constraint in the engine is stored there and by its id, since the engine gives none back. By its id it is small: a clause of two
//! to four literals is one block with four bytes a literal, another constraint has eight bytes a term if its numbers take 32 bits,
//! and else the form of `pb_norm`. An id whose constraint is deleted keeps two words. Places and listed ids take four bytes: past
//! 2^32 - 1 the answer is `NoMemory`, which slots alone would bring at 64 GB.
ghost use Rattle.std.specs.Prelude.{◌≡◌, ◌≤◌, ◌<◌, ◌+◌, ℕ, List, IfSome, IsNone, length, take};
ghost use Rattle.std.specs.Bool.{OnTrue, OnFalse};
ghost use Rattle.pb_norm.specs.Constraints.{HasVarsWithin};
ghost use Rattle.pb_unit.specs.States.{IsFree, added};
ghost use Rattle.pb_database.specs.declared.slots.Slot.{Slot};
ghost use Rattle.pb_database.specs.inner.Slots.{LeavesSlot};
ghost use Rattle.pb_database.specs.inner.Mirrors.{AreSame, AreWithin, IsMirrored, KeepsEngine};

use crate::slots::{self, Slot};
use pb_norm::Linear;
use pb_unit::Engine;
use std::alloc::Global;

// Adds a constraint, if there is memory, and returns its place in four bytes: an engine has no memory for more places than that.
fn add_short(engine: &mut Engine, constraint: &Linear) -> Option<u32>
    requires { HasVarsWithin engine.old.vars constraint.now.terms }
    ensures stands { IfSome result (λ place. IsFree engine.old place × (engine.new ≡ added place constraint.now engine.old)) }
    ensures kept { IsNone result → KeepsEngine engine.old engine.new }
{
    let Ok(place) = engine.add(constraint) else {
        return None
    };
    if place > u32::MAX as u64 {
        engine.remove(place);
        return None;
    }
    Some(place as u32)
}

// Makes the constraint of the next slot live in the engine, if it has one and there is memory.
fn enter_next(alloc: Global, engine: &mut Engine, slots: &mut Vec<Slot>, next: usize) -> bool
    requires known { next < length slots.old.items }
    requires within { AreWithin engine.old.vars slots.old.items }
    requires mirrored { IsMirrored engine.old.vars (take next slots.old.items) engine.old }
    ensures same { AreSame slots.old.items slots.new.items }
    ensures entered { OnTrue result (IsMirrored engine.old.vars (take (next + 1) slots.new.items) engine.new) }
    ensures refused { OnFalse result (IsMirrored engine.old.vars (take next slots.new.items) engine.new) }
{
    let Some(found) = slots::constraint_at(slots, next as u64 + 1) else {
        return true
    };
    let Ok(constraint) = found.read(alloc) else {
        return false
    };
    let Some(place) = add_short(engine, &constraint) else {
        return false
    };
    slots::set_place(slots, next, place);
    true
}

/// Makes the constraints of all slots live in the engine, in which those of the first ones are, if there is memory.
pub(crate) fn enter_rest(
    alloc: Global,
    engine: &mut Engine,
    slots: &mut Vec<Slot>,
    entered: &mut usize,
) -> bool
    requires few { entered.old ≤ length slots.old.items }
    requires within { AreWithin engine.old.vars slots.old.items }
    requires mirrored { IsMirrored engine.old.vars (take entered.old slots.old.items) engine.old }
    ensures same { AreSame slots.old.items slots.new.items }
    ensures few { entered.new ≤ length slots.new.items }
    ensures mirrored { IsMirrored engine.old.vars (take entered.new slots.new.items) engine.new }
    ensures all { OnTrue result (length slots.new.items ≤ entered.new) }
{
    'rest: while *entered < slots.len() {
        if !enter_next(alloc, engine, slots, *entered) {
            return false;
        }
        *entered += 1;
    }
    true
}

/// Deletes the constraint with an id from the engine, if it is live there.
pub(crate) fn leave(engine: &mut Engine, entered: usize, id: u64, place: u64)
    ensures { (vars : ℕ) (before after : List Slot) → LeavesSlot before id place after → IsMirrored vars (take entered before) engine.old → IsMirrored vars (take entered after) engine.new }
{
    if id <= entered as u64 {
        engine.remove(place);
    }
}
