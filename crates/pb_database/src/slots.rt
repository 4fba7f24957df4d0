//! Constraints by their ids.
ghost use Rattle.std.specs.Prelude.{◌≡◌, ◌<◌, ◌++◌, ◌∷◌, [], IfOk, OnOk, OnErr, is_some, length};
ghost use Rattle.std.specs.Option.{option_copied, option_to_list};
ghost use Rattle.pb_database.specs.inner.Slots.{whole, slot_of, listed_slots, slot_is_out, slots_without, slots_placed, marked_slots};

use crate::packed::Packed;
use pb_base::NoMemory;
use pb_norm::Linear;
use std::alloc::Global;
use std::mem;

/// The constraint of an id, if it is live, its place in the engine, and if it was put out: two words.
#[derive(Drop)]
pub(crate) struct Slot {
    pub(crate) constraint: Option<Packed>,
    pub(crate) place: u32,
    pub(crate) out: bool,
}

/// Adds a slot, whose constraint is at the place, if there is memory.
pub(crate) fn push(
    slots: &mut Vec<Slot>,
    alloc: Global,
    constraint: Linear,
    place: u64,
) -> Result<(), NoMemory>
    ensures ok { OnOk result (slots.new.items ≡ slots.old.items ++ whole constraint place ∷ []) }
    ensures err { OnErr result (slots.new.items ≡ slots.old.items) }
{
    if place > u32::MAX as u64 {
        return Err(NoMemory);
    }
    let packed = Packed::new(alloc, constraint)?;
    slots.push(Slot {
        constraint: Some(packed),
        place: place as u32,
        out: false,
    })?;
    Ok(())
}

/// Returns the constraint with an id, if it is live.
pub(crate) fn constraint_at(slots: &[Slot], id: u64) -> Option<&Packed>
    ensures { option_copied result ≡ (slot_of slots.now id).constraint }
{
    if id == 0 {
        return None;
    }
    match slots.get((id - 1) as usize) {
        Some(slot) => match &slot.constraint {
            Some(packed) => Some(packed),
            None => None,
        },
        None => None,
    }
}

// Adds the constraint with an id to a list, if it is live.
fn push_at(alloc: Global, slots: &[Slot], id: u64, list: &mut Vec<Linear>) -> Result<(), NoMemory>
    ensures { OnOk result (list.new.items ≡ list.old.items ++ option_to_list (slot_of slots.now id).constraint) }
{
    match constraint_at(slots, id) {
        Some(packed) => {
            let constraint = packed.read(alloc)?;
            list.push(constraint)?;
            Ok(())
        }
        None => Ok(()),
    }
}

/// Returns the constraints with the ids, as far as they are live.
pub(crate) fn listed(alloc: Global, slots: &[Slot], ids: &[u64]) -> Result<Vec<Linear>, NoMemory>
    ensures { IfOk result (λ list. list.items ≡ listed_slots slots.now ids.now) }
{
    let mut list = Vec::with_capacity(alloc, ids.len())?;
    for id in ids {
        push_at(alloc, slots, *id, &mut list)?;
    }
    Ok(list)
}

/// True if a constraint is live under the id.
pub(crate) fn stands(slots: &[Slot], id: u64) -> bool
    ensures { result ≡ is_some (slot_of slots.now id).constraint }
{
    constraint_at(slots, id).is_some()
}

/// True if the constraint with the id is live and was put out.
pub(crate) fn is_out(slots: &[Slot], id: u64) -> bool
    ensures { result ≡ slot_is_out (slot_of slots.now id) }
{
    if id == 0 {
        return false;
    }
    match slots.get((id - 1) as usize) {
        Some(slot) => slot.constraint.is_some() && slot.out,
        None => false,
    }
}

/// Deletes the constraint with an id, and returns its slot.
pub(crate) fn take(slots: &mut Vec<Slot>, id: u64) -> Slot
    ensures after { slots.new.items ≡ slots_without slots.old.items id }
    ensures gone { result ≡ slot_of slots.old.items id }
{
    let hole = Slot {
        constraint: None,
        place: 0,
        out: false,
    };
    if id == 0 || id > slots.len() as u64 {
        return hole;
    }
    mem::replace(&mut slots[(id - 1) as usize], hole)
}

/// Notes the place of a slot's constraint in the engine.
pub(crate) fn set_place(slots: &mut Vec<Slot>, index: usize, place: u32)
    requires { index < length slots.old.items }
    ensures { slots.new.items ≡ slots_placed slots.old.items index place }
{
    slots[index].place = place;
}

/// Marks the constraint with an id as put out.
pub(crate) fn mark(slots: &mut Vec<Slot>, id: u64)
    ensures { slots.new.items ≡ marked_slots slots.old.items id }
{
    if id == 0 || id > slots.len() as u64 {
        return;
    }
    slots[(id - 1) as usize].out = true;
}
