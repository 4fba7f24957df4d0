//! Propagation if there are far more variables than occur, over those that do.
//!
//! Engines have tables over all variables, and their calls that do not allocate (`assume`, `propagate`, `Rounds::show`) need room for
//! any of them beforehand. So a database of more than 2^22 variables, and of more than 256 for each loaded term, has engines over
//! none. Each propagation is then over a list made for it of the constraints that it needs, whose variables are replaced by their
//! ranks (`is_conflicting`); ranks ascend, so terms stay in normal form.
ghost use Rattle.std.specs.Prelude.{◌≡◌, ◌++◌, ◌∷◌, [], IfOk, OnOk, filter_map};
ghost use Rattle.std.specs.Option.{option_copied, option_to_list};
ghost use Rattle.pb_database.specs.inner.Slots.{slot_of, listed_slots};
ghost use Rattle.pb_database.specs.Refutations.{TellsConflict};

use crate::slots::{self, Slot};
use pb_base::NoMemory;
use pb_norm::Linear;
use pb_unit::{Constraints, is_conflicting};
use std::alloc::Global;

/// Returns a list of one constraint.
pub(crate) fn one(alloc: Global, constraint: &Linear) -> Result<Constraints, NoMemory>
    ensures { IfOk result (λ list. list ≡ constraint.now ∷ []) }
{
    let mut list = Constraints::new(alloc);
    list.push(constraint)?;
    Ok(list)
}

/// Returns a list of one constraint or two.
pub(crate) fn front(
    alloc: Global,
    first: &Linear,
    second: Option<&Linear>,
) -> Result<Constraints, NoMemory>
    ensures { IfOk result (λ list. list ≡ first.now ∷ option_to_list (option_copied second.entry)) }
{
    let mut list = one(alloc, first)?;
    match second {
        Some(constraint) => {
            list.push(constraint)?;
            Ok(list)
        }
        None => Ok(list),
    }
}

// Adds the constraint of a slot, if it has one.
fn push_slot(alloc: Global, slot: &Slot, list: &mut Constraints) -> Result<(), NoMemory>
    ensures { OnOk result (list.new ≡ list.old ++ option_to_list slot.now.constraint) }
{
    match &slot.constraint {
        Some(packed) => {
            let constraint = packed.read(alloc)?;
            list.push(&constraint)?;
            Ok(())
        }
        None => Ok(()),
    }
}

// Adds the constraints of slots.
fn push_slots(alloc: Global, slots: &[Slot], list: &mut Constraints) -> Result<(), NoMemory>
    ensures { OnOk result (list.new ≡ list.old ++ filter_map (λ s. s.constraint) slots.now) }
{
    for slot in slots {
        push_slot(alloc, slot, list)?;
    }
    Ok(())
}

// Adds the constraint with an id to a list, if it is live.
fn push_at(alloc: Global, slots: &[Slot], id: u64, list: &mut Constraints) -> Result<(), NoMemory>
    ensures { OnOk result (list.new ≡ list.old ++ option_to_list (slot_of slots.now id).constraint) }
{
    match slots::constraint_at(slots, id) {
        Some(packed) => {
            let constraint = packed.read(alloc)?;
            list.push(&constraint)?;
            Ok(())
        }
        None => Ok(()),
    }
}

// Adds the constraints with the ids.
fn push_listed(
    alloc: Global,
    slots: &[Slot],
    ids: &[u64],
    list: &mut Constraints,
) -> Result<(), NoMemory>
    ensures { OnOk result (list.new ≡ list.old ++ listed_slots slots.now ids.now) }
{
    for id in ids {
        push_at(alloc, slots, *id, list)?;
    }
    Ok(())
}

/// True if propagation over the constraints of a list and those of all slots reaches a conflict.
pub(crate) fn is_refuted_with_all(
    alloc: Global,
    front: Constraints,
    slots: &[Slot],
) -> Result<bool, NoMemory>
    ensures { IfOk result (TellsConflict (front ++ filter_map (λ s. s.constraint) slots.now)) }
{
    let mut list = front;
    push_slots(alloc, slots, &mut list)?;
    let found = is_conflicting(alloc, &list)?;
    Ok(found)
}

/// True if propagation over the constraints of a list and those with the ids reaches a conflict.
pub(crate) fn is_refuted_with_listed(
    alloc: Global,
    front: Constraints,
    slots: &[Slot],
    ids: &[u64],
) -> Result<bool, NoMemory>
    ensures { IfOk result (TellsConflict (front ++ listed_slots slots.now ids.now)) }
{
    let mut list = front;
    push_listed(alloc, slots, ids, &mut list)?;
    let found = is_conflicting(alloc, &list)?;
    Ok(found)
}
