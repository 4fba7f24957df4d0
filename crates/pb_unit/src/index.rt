//! For each literal, the constraints in which it stands.
ghost use Rattle.std.specs.Prelude.{◌≡◌, ◌≤◌, ◌<◌, ◌+◌, ◌*◌, ◌^◌, ◌==◌, ◌++◌, ◌∷◌, [], ℕ, List, length, IfOk, if◌then◌else◌, slice_set, slice_index_or, filter, is_some, take, IfSome, IsNone};
ghost use Rattle.std.specs.Bool.{OnTrue, OnFalse};
ghost use Rattle.pb_unit.specs.Index.{code, section, size_of, units_at, others_at, that_stand, IsAscending, IsSectioned, IsPushed, AreSame, HasOneMore};
ghost use Rattle.pb_unit.specs.States.{at_place};

use crate::newest::newest_that;
use crate::places::Places;
use pb_base::{Lit, NoMemory};
use std::alloc::Global;
use std::marker::Model;

/// A constraint in which a literal stands, and its coefficient there.
#[derive(Clone, Copy)]
pub(crate) struct Occurrence {
    pub(crate) place: usize,
    pub(crate) coef: u128,
}

/// Where a literal stands.
#[derive(Drop)]
pub(crate) struct Occurrences {
    items: Vec<Occurrence>,
}

impl Model for Occurrences {
    ghost use Rattle.std.specs.Prelude.{List};
    ghost use Rattle.pb_unit.specs.declared.index.Occurrence.{Occurrence};

    ghost Value = { List Occurrence };

    ghost view = { λ o. o.items.items };
}

// Where one of the newest occurrences at a place is, if one is there.
fn newest_at(items: &[Occurrence], place: usize) -> Option<usize>
    ensures below { IfSome result (λ i. i < length items.now) }
    ensures at { IfSome result (λ i. (o : Occurrence) → (slice_index_or items.now i o).place ≡ place) }
{
    newest_that(items, |occurrence| occurrence.place == place)
}

impl Occurrences {
    fn push(&mut self, occurrence: Occurrence) -> bool
        ensures { self.new ≡ (if result then self.old ++ occurrence ∷ [] else self.old) }
    {
        self.items.push(occurrence).is_ok()
    }

    fn as_slice(&self) -> &[Occurrence]
        ensures { result.now ≡ self.now }
    {
        self.items.as_slice()
    }

    // Takes out one of the newest at a place, if one is there.
    fn take(&mut self, place: usize) -> Option<Occurrence>
        ensures at { IfSome result (λ o. o.place ≡ place) }
        ensures taken { IfSome result (λ o. HasOneMore o self.new self.old) }
        ensures none { IsNone result → self.new ≡ self.old }
    {
        match newest_at(&self.items, place) {
            Some(index) => Some(self.items.remove(index)),
            None => None,
        }
    }
}

/// Where the literals stand, by their numbers. A literal has a section of one list of places, for coefficients of 1, and a list of
/// its own for what the section has no room for.
#[derive(Drop)]
pub(crate) struct Index {
    starts: Vec<u32>,
    ends: Vec<u32>,
    units: Vec<u32>,
    lists: Vec<Occurrences>,
}

impl Model for Index {
    ghost use Rattle.pb_unit.specs.Index.{Lists, IsSectioned};

    ghost Value = { Lists };

    ghost view = { λ x. record { starts = x.starts.items; ends = x.ends.items; units = x.units.items; others = x.lists.items } };

    ghost invariant = { λ x. IsSectioned x.starts.items x.ends.items x.units.items };
}

// The number under which a literal's occurrences stand.
pub(crate) fn code(lit: &Lit) -> usize
    ensures { result ≡ code lit.now }
{
    let base = 2 * lit.index() as usize;
    if lit.positive { base + 1 } else { base }
}

// Where sections of these lengths begin, one after another, and where the last one ends.
fn starts_of(alloc: Global, counts: &[u32]) -> Result<Vec<u32>, NoMemory>
    ensures size { IfOk result (λ v. length v.items ≡ length counts.now + 1) }
    ensures ascending { IfOk result (λ v. IsAscending v.items) }
{
    let mut starts = Vec::with_capacity(alloc, counts.len() + 1)?;
    let mut next: u32 = 0;
    starts.push(next)?;
    for count in counts {
        next = next.saturating_add(*count);
        starts.push(next)?;
    }
    Ok(starts)
}

// Lists enough for a number, if there is memory.
fn widen(alloc: Global, lists: &mut Vec<Occurrences>, size: usize) -> bool
    ensures same { (k : ℕ) → slice_index_or lists.new.items k [] ≡ slice_index_or lists.old.items k [] }
    ensures size { OnTrue result (size ≤ length lists.new.items) }
{
    while lists.len() < size {
        let none = Occurrences {
            items: Vec::new(alloc),
        };
        if lists.push(none).is_err() {
            return false;
        }
    }
    true
}

// One more occurrence, if there is memory.
fn append(lists: &mut [Occurrences], number: usize, occurrence: Occurrence) -> bool
    requires { number < length lists.old }
    ensures pushed { OnTrue result (lists.new ≡ slice_set lists.old number (slice_index_or lists.old number [] ++ occurrence ∷ [])) }
    ensures refused { OnFalse result (lists.new ≡ lists.old) }
{
    lists[number].push(occurrence)
}

// One more occurrence in the list of a number, if there is memory.
fn put_other(
    alloc: Global,
    lists: &mut Vec<Occurrences>,
    number: usize,
    occurrence: Occurrence,
) -> bool
    requires { number < 2 ^ 63 }
    ensures here { OnTrue result (slice_index_or lists.new.items number [] ≡ slice_index_or lists.old.items number [] ++ occurrence ∷ []) }
    ensures others { (k : ℕ) → (k ≡ number → ⊥) → slice_index_or lists.new.items k [] ≡ slice_index_or lists.old.items k [] }
    ensures refused { OnFalse result ((k : ℕ) → slice_index_or lists.new.items k [] ≡ slice_index_or lists.old.items k []) }
{
    if !widen(alloc, lists, number + 1) {
        return false;
    }
    append(lists, number, occurrence)
}

// Takes out one of the newest occurrences in the list of a number at a place, if one is there.
fn take_other(lists: &mut [Occurrences], number: usize, place: usize) -> Option<Occurrence>
    ensures at { IfSome result (λ o. o.place ≡ place) }
    ensures here { IfSome result (λ o. HasOneMore o (slice_index_or lists.new number []) (slice_index_or lists.old number [])) }
    ensures others { (k : ℕ) → (k ≡ number → ⊥) → slice_index_or lists.new k [] ≡ slice_index_or lists.old k [] }
    ensures none { IsNone result → lists.new ≡ lists.old }
{
    if number >= lists.len() {
        return None;
    }
    lists[number].take(place)
}

// One more place in the section of a number, if the coefficient there is 1 and there is room.
fn put_unit(
    starts: &[u32],
    ends: &mut [u32],
    units: &mut [u32],
    number: usize,
    place: usize,
    coef: u128,
) -> bool
    requires sections { IsSectioned starts.now ends.old units.old }
    requires known { number < length ends.old }
    ensures sections { IsSectioned starts.now ends.new units.new }
    ensures one { OnTrue result (coef ≡ 1) }
    ensures here { OnTrue result (section starts.now ends.new units.new number ≡ section starts.now ends.old units.old number ++ place ∷ []) }
    ensures others { (k : ℕ) → (k ≡ number → ⊥) → section starts.now ends.new units.new k ≡ section starts.now ends.old units.old k }
    ensures refused { OnFalse result ((ends.new ≡ ends.old) × (units.new ≡ units.old)) }
{
    let end = ends[number];
    if coef != 1 || place > u32::MAX as usize || end >= starts[number + 1] {
        return false;
    }
    units[end as usize] = place as u32;
    ends[number] = end + 1;
    true
}

// Has the places where a constraint stands in front. How many these are.
fn squeeze(units: &mut [u32], places: &Places) -> usize
    ensures bound { result ≤ length units.old }
    ensures front { take result units.new ≡ that_stand places.now units.old }
{
    let mut front = 0;
    for index in 0..units.len() {
        let place = units[index];
        if places.stands(place as usize) {
            units[front] = place;
            front += 1;
        }
    }
    front
}

// Drops the places where no constraint stands from the section of a number.
fn sweep_section(
    starts: &[u32],
    ends: &mut [u32],
    units: &mut [u32],
    number: usize,
    places: &Places,
)
    requires sections { IsSectioned starts.now ends.old units.old }
    requires known { number < length ends.old }
    ensures sections { IsSectioned starts.now ends.new units.new }
    ensures here { section starts.now ends.new units.new number ≡ that_stand places.now (section starts.now ends.old units.old number) }
    ensures others { (k : ℕ) → (k ≡ number → ⊥) → section starts.now ends.new units.new k ≡ section starts.now ends.old units.old k }
{
    let start = starts[number];
    let end = ends[number];
    let count = squeeze(&mut units[start as usize..end as usize], places);
    ends[number] = start + count as u32;
}

// Drops the places where no constraint stands from all sections.
fn sweep_sections(starts: &[u32], ends: &mut [u32], units: &mut [u32], places: &Places)
    requires { IsSectioned starts.now ends.old units.old }
    ensures sections { IsSectioned starts.now ends.new units.new }
    ensures swept { (k : ℕ) → section starts.now ends.new units.new k ≡ that_stand places.now (section starts.now ends.old units.old k) }
{
    for number in 0..ends.len() {
        sweep_section(starts, ends, units, number, places);
    }
}

// Drops the occurrences of a literal at places where no constraint stands.
fn sweep_one(list: &mut Occurrences, places: &Places)
    ensures { list.new ≡ filter (λ o. is_some (at_place places.now o.place)) list.old }
{
    list.items
        .retain(|occurrence| places.stands(occurrence.place));
}

// Drops all occurrences at places where no constraint stands.
fn sweep_lists(lists: &mut [Occurrences], places: &Places)
    ensures { (k : ℕ) → slice_index_or lists.new k [] ≡ filter (λ o. is_some (at_place places.now o.place)) (slice_index_or lists.old k []) }
{
    for index in 0..lists.len() {
        sweep_one(&mut lists[index], places);
    }
}

impl Index {
    // No literal stands anywhere yet. There is room for so many coefficients of 1, by the literals' numbers.
    pub(crate) fn new(alloc: Global, counts: &[u32]) -> Result<Index, NoMemory>
        ensures size { IfOk result (λ index. size_of index ≡ length counts.now) }
        ensures units { IfOk result (λ index. (k : ℕ) → units_at index k ≡ []) }
        ensures others { IfOk result (λ index. (k : ℕ) → others_at index k ≡ []) }
    {
        let starts = starts_of(alloc, counts)?;
        let ends = Vec::from_slice(alloc, &starts[..counts.len()])?;
        let total = starts[counts.len()] as usize;
        Ok(Index {
            starts,
            ends,
            units: vec![in alloc; 0; total]?,
            lists: Vec::new(alloc),
        })
    }

    // How many coefficients of 1 there is room for.
    pub(crate) fn room(&self) -> usize {
        self.units.len()
    }

    // How many numbers of literals there are.
    pub(crate) fn size(&self) -> usize
        ensures { result ≡ size_of self.now }
    {
        self.ends.len()
    }

    // The places where a literal has the coefficient 1, as far as they are listed so.
    pub(crate) fn units(&self, lit: &Lit) -> &[u32]
        requires { code lit.now < size_of self.now }
        ensures { result.now ≡ units_at self.now (code lit.now) }
    {
        let number = code(lit);
        &self.units[self.starts[number] as usize..self.ends[number] as usize]
    }

    // Where else a literal stands.
    pub(crate) fn others(&self, lit: &Lit) -> &[Occurrence]
        ensures { result.now ≡ others_at self.now (code lit.now) }
    {
        match self.lists.get(code(lit)) {
            Some(list) => list.as_slice(),
            None => &[],
        }
    }

    // One more occurrence of a literal, if there is memory.
    pub(crate) fn push(&mut self, alloc: Global, lit: &Lit, place: usize, coef: u128) -> bool
        requires { code lit.now < size_of self.old }
        ensures pushed { OnTrue result (IsPushed lit.now (record { place = place; coef = coef }) self.old self.new) }
        ensures refused { OnFalse result (AreSame self.old self.new) }
    {
        let number = code(lit);
        if put_unit(
            &self.starts,
            &mut self.ends,
            &mut self.units,
            number,
            place,
            coef,
        ) {
            return true;
        }
        put_other(alloc, &mut self.lists, number, Occurrence { place, coef })
    }

    // Takes out one of the newest occurrences of a literal at a place, if one is there.
    pub(crate) fn take(&mut self, lit: &Lit, place: usize) -> Option<Occurrence>
        ensures at { IfSome result (λ o. o.place ≡ place) }
        ensures taken { IfSome result (λ o. IsPushed lit.now o self.new self.old) }
        ensures none { IsNone result → AreSame self.old self.new }
    {
        take_other(&mut self.lists, code(lit), place)
    }

    // Drops the occurrences at places where no constraint stands.
    pub(crate) fn sweep(&mut self, places: &Places)
        ensures size { size_of self.new ≡ size_of self.old }
        ensures units { (k : ℕ) → units_at self.new k ≡ that_stand places.now (units_at self.old k) }
        ensures others { (k : ℕ) → others_at self.new k ≡ filter (λ o. is_some (at_place places.now o.place)) (others_at self.old k) }
    {
        sweep_sections(&self.starts, &mut self.ends, &mut self.units, places);
        sweep_lists(&mut self.lists, places);
    }

    // How many numbers and occurrences there are.
    pub(crate) fn len(&self) -> usize {
        let mut entries = self.units.len().saturating_add(self.ends.len());
        for list in &self.lists {
            entries = entries.saturating_add(list.items.len());
        }
        entries
    }
}
