//! Propagation over listed constraints alone, in an engine that has no others.
ghost use Rattle.std.specs.Prelude.{◌≡◌, ◌∷◌, ◌++◌, [], List, IfOk};
ghost use Rattle.std.specs.Bool.{OnTrue};
ghost use Rattle.std.specs.Option.{option_to_list};
ghost use Rattle.pb_norm.specs.Constraints.{Constraint, HasVarsWithin};
ghost use Rattle.pb_database.specs.inner.Slots.{slot_of, listed_slots};
ghost use Rattle.pb_database.specs.inner.Mirrors.{IsCovered, IsIdle, HasJust, AreWithin};
ghost use Rattle.pb_database.specs.Refutations.{TellsConflict};

use crate::refutation::is_conflict;
use crate::slots::{self, Slot};
use pb_base::NoMemory;
use pb_norm::Linear;
use pb_unit::Engine;
use std::alloc::Global;

// Adds a constraint to an engine, and its place to a list, if there is memory, and returns whether there was.
fn join(engine: &mut Engine, places: &mut Vec<u64>, constraint: &Linear) -> bool
    requires within { HasVarsWithin engine.old.vars constraint.now.terms }
    requires covered { IsCovered engine.old.vars places.old.items engine.old }
    ensures covered { IsCovered engine.old.vars places.new.items engine.new }
    ensures joined { OnTrue result ((cs : List Constraint) → HasJust cs engine.old → HasJust (cs ++ constraint.now ∷ []) engine.new) }
{
    let Ok(place) = engine.add(constraint) else {
        return false
    };
    match places.push(place) {
        Ok(()) => true,
        Err(_) => {
            engine.remove(place);
            false
        }
    }
}

// Adds the constraint with an id, if it is live and there is memory.
fn join_at(
    alloc: Global,
    engine: &mut Engine,
    places: &mut Vec<u64>,
    slots: &[Slot],
    id: u64,
) -> bool
    requires within { AreWithin engine.old.vars slots.now }
    requires covered { IsCovered engine.old.vars places.old.items engine.old }
    ensures covered { IsCovered engine.old.vars places.new.items engine.new }
    ensures joined { OnTrue result ((cs : List Constraint) → HasJust cs engine.old → HasJust (cs ++ option_to_list (slot_of slots.now id).constraint) engine.new) }
{
    let Some(found) = slots::constraint_at(slots, id) else {
        return true
    };
    match found.read(alloc) {
        Ok(constraint) => join(engine, places, &constraint),
        Err(NoMemory) => false,
    }
}

// Adds the constraints with the ids, if there is memory.
fn join_listed(
    alloc: Global,
    engine: &mut Engine,
    places: &mut Vec<u64>,
    slots: &[Slot],
    ids: &[u64],
) -> bool
    requires within { AreWithin engine.old.vars slots.now }
    requires covered { IsCovered engine.old.vars places.old.items engine.old }
    ensures covered { IsCovered engine.old.vars places.new.items engine.new }
    ensures joined { OnTrue result ((cs : List Constraint) → HasJust cs engine.old → HasJust (cs ++ listed_slots slots.now ids.now) engine.new) }
{
    for id in ids {
        if !join_at(alloc, engine, places, slots, *id) {
            return false;
        }
    }
    true
}

// Deletes all constraints that were added, the newest first: their occurrences are the newest too.
fn leave(engine: &mut Engine, places: &mut Vec<u64>)
    requires covered { IsCovered engine.old.vars places.old.items engine.old }
    ensures idle { IsIdle engine.old.vars engine.new }
{
    'newest: while let Some(place) = places.pop() {
        engine.remove(place);
    }
}

// Adds a constraint and those with the ids, if there is memory.
fn join_all(
    alloc: Global,
    engine: &mut Engine,
    places: &mut Vec<u64>,
    slots: &[Slot],
    more: &Linear,
    ids: &[u64],
) -> bool
    requires more { HasVarsWithin engine.old.vars more.now.terms }
    requires within { AreWithin engine.old.vars slots.now }
    requires none { places.old.items ≡ [] }
    requires idle { IsIdle engine.old.vars engine.old }
    ensures covered { IsCovered engine.old.vars places.new.items engine.new }
    ensures joined { OnTrue result (HasJust (more.now ∷ listed_slots slots.now ids.now) engine.new) }
{
    if !join(engine, places, more) {
        return false;
    }
    join_listed(alloc, engine, places, slots, ids)
}

/// True if propagation over a constraint and those with the ids reaches a conflict. The constraints are deleted from the engine again.
pub(crate) fn is_refuted_by(
    alloc: Global,
    engine: &mut Engine,
    slots: &[Slot],
    more: &Linear,
    ids: &[u64],
) -> Result<bool, NoMemory>
    requires more { HasVarsWithin engine.old.vars more.now.terms }
    requires within { AreWithin engine.old.vars slots.now }
    requires idle { IsIdle engine.old.vars engine.old }
    ensures idle { IsIdle engine.old.vars engine.new }
    ensures answer { IfOk result (TellsConflict (more.now ∷ listed_slots slots.now ids.now)) }
{
    let mut places = Vec::new(alloc);
    let joined = join_all(alloc, engine, &mut places, slots, more, ids);
    let outcome = engine.propagate();
    leave(engine, &mut places);
    if !joined {
        return Err(NoMemory);
    }
    Ok(is_conflict(outcome))
}
