//! Constraints by their places.
ghost use Rattle.std.specs.Prelude.{◌≡◌, ◌≤◌, ◌<◌, ◌+◌, ◌*◌, ◌-◌, ◌^◌, ◌++◌, ◌∷◌, [], if◌then◌else◌, ℕ, List, Some, None, IsTrue, IfOk, IfSome, OnOk, All, length, map, take, is_some, slice_set, sum_by};
ghost use Rattle.std.specs.Bool.{OnTrue, OnFalse};
ghost use Rattle.std.specs.Option.{option_map};
ghost use Rattle.pb_base.specs.declared.literal.Lit.{Lit};
ghost use Rattle.pb_norm.specs.Constraints.{Constraint, terms_of, weight, weights, HasVarsWithin};
ghost use Rattle.pb_norm.specs.Propagation.{room};
ghost use Rattle.pb_unit.specs.States.{StandWithin, Stands, at_place, placed, standing, slack_of};
ghost use Rattle.pb_unit.specs.Steps.{IsCalm, Advances, HasTooLittle};
ghost use Rattle.pb_unit.specs.inner.Filling.{terms_in, IsFilling, IsInRange, IsKeptOf};
ghost use Rattle.pb_unit.specs.Index.{list_at, size_of};
ghost use Rattle.pb_unit.specs.inner.Slots.{unit, part, clause_of, slot_at, slot_lits, with_slot, AreSlots, IsSlot};
ghost use Rattle.pb_unit.specs.Reaching.{IsUpTo, OfConstraint};
ghost use Rattle.pb_unit.specs.Reads.{lit_count, ReadsAt};

use crate::filling::{Codes, count_lits, count_terms, fill_range};
use crate::highest::{greatest_from, greatest_of_slots};
use crate::index::Index;
use crate::kept::{Counters, NOTHING, kept_of};
use crate::slack::{are_two_open, open_units, room_under, slack_of, slack_of_clause};
use crate::trail::Trail;
use crate::visit::{visit, visit_clause};
use pb_base::{Lit, NoMemory, Term};
use pb_norm::Linear;
use std::alloc::Global;
use std::marker::Model;
use std::mem;

/// What stands at a place: nothing; a clause, with its part of one list of literals; or a constraint in memory of its own, so that
/// a place takes little where a clause stands.
#[derive(Drop)]
pub(crate) enum Slot {
    Empty,
    Clause { start: u32, len: u32 },
    General(Box<Linear>),
}

/// Constraints by their places.
pub(crate) struct Places {
    slots: Vec<Slot>,
    lits: Vec<Lit>,
}

// Written out: one call in the proof of a function that owns it.
impl Drop for Places {
    fn drop(self) {
        let Places { slots: _, lits: _ } = self;
    }
}

impl Model for Places {
    ghost use Rattle.std.specs.Prelude.{List, Option, map, length};
    ghost use Rattle.pb_norm.specs.Constraints.{Constraint};
    ghost use Rattle.pb_unit.specs.inner.Slots.{slot_at, AreSlots};

    ghost Value = { List (Option Constraint) };

    ghost view = { λ p. map (slot_at p.lits.items) p.slots.items };

    ghost invariant = { λ p. AreSlots (length p.lits.items) p.slots.items };
}

// Whether all coefficients are 1.
fn are_units(terms: &[Term]) -> bool
    ensures { IsTrue result → weights terms.now ≡ map (λ t. unit t.lit) terms.now }
{
    for term in terms {
        if term.weight() != 1 {
            return false;
        }
    }
    true
}

// Adds the literals of terms, if there is memory.
fn push_lits(lits: &mut Vec<Lit>, terms: &[Term]) -> bool
    ensures pushed { OnTrue result (lits.new.items ≡ lits.old.items ++ map (λ t. t.lit) terms.now) }
    ensures longer { take (length lits.old.items) lits.new.items ≡ lits.old.items }
{
    for term in terms {
        if lits.push(term.lit).is_err() {
            return false;
        }
    }
    true
}

// A slot for a clause, with its literals in the list, if that can be.
fn clause_slot(lits: &mut Vec<Lit>, constraint: &Linear) -> Option<Slot>
    ensures longer { take (length lits.old.items) lits.new.items ≡ lits.old.items }
    ensures slot { IfSome result (λ slot. IsSlot (length lits.new.items) slot × (slot_at lits.new.items slot ≡ Some constraint.now)) }
{
    let start = lits.len();
    let len = constraint.len();
    let most = u32::MAX as usize;
    if start > most || len > most || constraint.degree() != 1 || !are_units(constraint.terms()) {
        return None;
    }
    if !push_lits(lits, constraint.terms()) {
        return None;
    }
    Some(Slot::Clause {
        start: start as u32,
        len: len as u32,
    })
}

// A slot for a clause whose literals go to the list, if that can be.
fn lits_slot(lits: &mut Vec<Lit>, clause: &[Lit]) -> Option<Slot>
    ensures longer { take (length lits.old.items) lits.new.items ≡ lits.old.items }
    ensures slot { IfSome result (λ slot. IsSlot (length lits.new.items) slot × (slot_at lits.new.items slot ≡ Some (clause_of clause.now))) }
{
    let start = lits.len();
    let len = clause.len();
    let most = u32::MAX as usize;
    if start > most || len > most || lits.extend_from_slice(clause).is_err() {
        return None;
    }
    Some(Slot::Clause {
        start: start as u32,
        len: len as u32,
    })
}

// A slot for any constraint, if there is memory.
fn general_slot(alloc: Global, constraint: Linear) -> Option<Slot>
    ensures { IfSome result (λ slot. (n : ℕ) (lits : List Lit) → IsSlot n slot × (slot_at lits slot ≡ Some constraint)) }
{
    match Box::new(alloc, constraint) {
        Ok(alone) => Some(Slot::General(alone)),
        Err(_) => None,
    }
}

// A slot for a copy of a constraint, if there is memory. A clause goes to the list of literals.
fn slot_of(alloc: Global, lits: &mut Vec<Lit>, constraint: &Linear) -> Option<Slot>
    ensures longer { take (length lits.old.items) lits.new.items ≡ lits.old.items }
    ensures slot { IfSome result (λ slot. IsSlot (length lits.new.items) slot × (slot_at lits.new.items slot ≡ Some constraint.now)) }
{
    if let Some(slot) = clause_slot(lits, constraint) {
        return Some(slot);
    }
    match constraint.copy(alloc) {
        Ok(copy) => general_slot(alloc, copy),
        Err(NoMemory) => None,
    }
}

// One more slot, if there is memory.
fn push_slot(slots: &mut Vec<Slot>, slot: Slot) -> bool
    ensures { slots.new.items ≡ (if result then slots.old.items ++ slot ∷ [] else slots.old.items) }
{
    slots.push(slot).is_ok()
}

// The slot at a place, which is one of the list or the next, if there is memory.
fn set_slot(slots: &mut Vec<Slot>, place: usize, slot: Slot) -> bool
    requires { place ≤ length slots.old.items }
    ensures set { OnTrue result (slots.new.items ≡ with_slot slots.old.items place slot) }
    ensures refused { OnFalse result (slots.new.items ≡ slots.old.items) }
{
    if place < slots.len() {
        slots[place] = slot;
        return true;
    }
    push_slot(slots, slot)
}

// The part of a list of literals.
pub(crate) fn part(lits: &[Lit], start: u32, len: u32) -> &[Lit]
    requires { start + len ≤ length lits.now }
    ensures { result.now ≡ part lits.now start len }
{
    &lits[start as usize..start as usize + len as usize]
}

// Whether a constraint stands in the slot of a place.
fn stands_in(slots: &[Slot], place: usize) -> bool
    ensures { (lits : List Lit) → result ≡ is_some (at_place (map (slot_at lits) slots.now) place) }
{
    match slots.get(place) {
        Some(Slot::Clause { .. }) => true,
        Some(Slot::General(_)) => true,
        _ => false,
    }
}

// Has all hold that the constraint at the place needs with so much room left, or says that this is too little.
fn look_at(slots: &[Slot], lits: &[Lit], place: usize, left: u128, held: &mut Trail) -> bool
    requires slots { AreSlots (length lits.now) slots.now }
    requires within { (c : Constraint) → Stands (map (slot_at lits.now) slots.now) place c → HasVarsWithin held.old.vars c.terms }
    requires bound { (c : Constraint) → Stands (map (slot_at lits.now) slots.now) place c → room held.old.lits c.terms ≤ left }
    ensures vars { held.new.vars ≡ held.old.vars }
    ensures advances { (given : List Lit) → Advances (standing (map (slot_at lits.now) slots.now)) given held.old.lits held.new.lits }
    ensures calm { OnTrue result ((c : Constraint) → Stands (map (slot_at lits.now) slots.now) place c → IsCalm left held.new.lits c) }
    ensures short { OnFalse result (HasTooLittle (map (slot_at lits.now) slots.now) held.new.lits place) }
{
    match slots.get(place) {
        Some(Slot::Clause { start, len }) => visit_clause(part(lits, *start, *len), left, held),
        Some(Slot::General(alone)) => visit(alone, left, held),
        _ => true,
    }
}

// Whether a clause is at the place that needs nothing, since two of its literals can still be true.
fn is_easy_in(slots: &[Slot], lits: &[Lit], place: usize, held: &Trail) -> bool
    requires { AreSlots (length lits.now) slots.now }
    ensures { IsTrue result → (c : Constraint) → Stands (map (slot_at lits.now) slots.now) place c → IsCalm (room held.now.lits c.terms) held.now.lits c }
{
    match slots.get(place) {
        Some(Slot::Clause { start, len }) => are_two_open(part(lits, *start, *len), held),
        _ => false,
    }
}

// What the terms at the place can still add.
fn room_in(slots: &[Slot], lits: &[Lit], place: usize, held: &Trail) -> u128
    requires slots { AreSlots (length lits.now) slots.now }
    requires narrow { (c : Constraint) → Stands (map (slot_at lits.now) slots.now) place c → weight c.terms ≤ 2 ^ 126 }
    ensures { (c : Constraint) → Stands (map (slot_at lits.now) slots.now) place c → result ≡ room held.now.lits c.terms }
{
    match slots.get(place) {
        Some(Slot::Clause { start, len }) => open_units(part(lits, *start, *len), held),
        Some(Slot::General(alone)) => room_under(alone, held),
        _ => 0,
    }
}

// The slack of what stands at the place. The room is that, if all literals that hold were told.
fn slack_in(
    slots: &[Slot],
    lits: &[Lit],
    place: usize,
    left: u128,
    told: bool,
    held: &Trail,
) -> Option<i128>
    requires slots { AreSlots (length lits.now) slots.now }
    requires told { IsTrue told → (c : Constraint) → Stands (map (slot_at lits.now) slots.now) place c → left ≡ room held.now.lits c.terms }
    requires narrow { (c : Constraint) → Stands (map (slot_at lits.now) slots.now) place c → weight c.terms ≤ 2 ^ 126 }
    ensures { result ≡ option_map (slack_of held.now.lits) (at_place (map (slot_at lits.now) slots.now) place) }
{
    match slots.get(place) {
        Some(Slot::Clause { start, len }) => {
            Some(slack_of_clause(part(lits, *start, *len), left, told, held))
        }
        Some(Slot::General(alone)) => Some(slack_of(alone, left, told, held)),
        _ => None,
    }
}

// Adds the terms of literals with the coefficient 1.
fn push_units(terms: &mut Vec<Term>, lits: &[Lit]) -> Result<(), NoMemory>
    ensures { OnOk result (terms.new.items ≡ terms.old.items ++ terms_of (map unit lits.now)) }
{
    for lit in lits {
        terms.push(Term::weighing(1, *lit))?;
    }
    Ok(())
}

// The terms and the degree of what stands at the place.
fn read_in(
    slots: &[Slot],
    lits: &[Lit],
    place: usize,
    terms: &mut Vec<Term>,
) -> Result<u128, NoMemory>
    requires { AreSlots (length lits.now) slots.now }
    ensures { IfOk result (λ degree. ReadsAt (map (slot_at lits.now) slots.now) place terms.new.items degree) }
{
    terms.clear();
    match slots.get(place) {
        Some(Slot::Clause { start, len }) => {
            push_units(terms, part(lits, *start, *len))?;
            Ok(1)
        }
        Some(Slot::General(alone)) => {
            terms.extend_from_slice(alone.terms())?;
            Ok(alone.degree())
        }
        _ => Ok(0),
    }
}

// What is kept of what stands at the place, while nothing is told.
fn kept_in(slots: &[Slot], lits: &[Lit], place: usize) -> Counters
    requires slots { AreSlots (length lits.now) slots.now }
    requires known { place < length slots.now }
    ensures { IsKeptOf (at_place (map (slot_at lits.now) slots.now) place) result }
{
    match &slots[place] {
        Slot::Clause { start, len } => {
            let lits = part(lits, *start, *len);
            Counters {
                room: lits.len() as u128,
                alert: 2,
            }
        }
        Slot::General(alone) => kept_of(alone),
        Slot::Empty => NOTHING,
    }
}

// Counts the coefficients of 1 in a slot by literals.
fn count_slot(slot: &Slot, lits: &[Lit], counts: &mut [u32])
    requires { IsSlot (length lits.now) slot.now }
{
    match slot {
        Slot::Clause { start, len } => count_lits(part(lits, *start, *len), counts),
        Slot::General(alone) => count_terms(alone.terms(), counts),
        Slot::Empty => {}
    }
}

// How many literals the clause of a slot has.
fn slot_lits(slot: &Slot) -> usize
    ensures { result ≡ slot_lits slot.now }
{
    match slot {
        Slot::Clause { start: _, len } => *len as usize,
        _ => 0,
    }
}

// How many literals the clauses of slots have, or as many as can be counted.
fn lits_of_slots(slots: &[Slot]) -> usize
    ensures { result ≤ sum_by slot_lits slots.now }
{
    let mut count: usize = 0;
    for slot in slots {
        count = count.saturating_add(slot_lits(slot));
    }
    count
}

impl Places {
    // No place yet.
    pub(crate) fn new(alloc: Global) -> Places
        ensures { result ≡ [] }
    {
        Places {
            slots: Vec::new(alloc),
            lits: Vec::new(alloc),
        }
    }

    // How many places there are.
    pub(crate) fn len(&self) -> usize
        ensures { result ≡ length self.now }
    {
        self.slots.len()
    }

    // How many literals the clauses have that came in order and still stand.
    pub(crate) fn clause_lits(&self) -> usize
        ensures { result ≤ lit_count (standing self.now) }
    {
        lits_of_slots(&self.slots)
    }

    // The greatest variable of all that stands, or a number that is no less.
    pub(crate) fn greatest(&self, least: u32) -> u32
        requires { least < 2 ^ 31 }
        ensures within { All (OfConstraint (IsUpTo result)) (standing self.now) }
        ensures no_less { least ≤ result }
        ensures few { result < 2 ^ 31 }
    {
        greatest_of_slots(&self.slots, greatest_from(&self.lits, least))
    }

    // Whether a constraint stands at the place.
    pub(crate) fn stands(&self, place: usize) -> bool
        ensures { result ≡ is_some (at_place self.now place) }
    {
        stands_in(&self.slots, place)
    }

    // Has a constraint stand at the place, which is one of the list or the next, if there is memory.
    pub(crate) fn put(&mut self, alloc: Global, place: usize, constraint: Linear) -> bool
        requires { place ≤ length self.old }
        ensures { self.new ≡ (if result then placed place constraint self.old else self.old) }
    {
        match general_slot(alloc, constraint) {
            Some(slot) => set_slot(&mut self.slots, place, slot),
            None => false,
        }
    }

    // Has a copy of a constraint stand at the next place, if there is memory.
    pub(crate) fn push(&mut self, alloc: Global, constraint: &Linear) -> bool
        ensures { self.new ≡ (if result then self.old ++ Some constraint.now ∷ [] else self.old) }
    {
        match slot_of(alloc, &mut self.lits, constraint) {
            Some(slot) => push_slot(&mut self.slots, slot),
            None => false,
        }
    }

    // Has a clause stand at the next place, if that can be.
    pub(crate) fn push_clause(&mut self, clause: &[Lit]) -> bool
        ensures { self.new ≡ (if result then self.old ++ Some (clause_of clause.now) ∷ [] else self.old) }
    {
        match lits_slot(&mut self.lits, clause) {
            Some(slot) => push_slot(&mut self.slots, slot),
            None => false,
        }
    }

    // The terms and the degree of what stands at the place.
    pub(crate) fn read(&self, place: usize, terms: &mut Vec<Term>) -> Result<u128, NoMemory>
        ensures { IfOk result (λ degree. ReadsAt self.now place terms.new.items degree) }
    {
        read_in(&self.slots, &self.lits, place, terms)
    }

    // What is kept of what stands at the place, while nothing is told.
    pub(crate) fn kept(&self, place: usize) -> Counters
        requires { place < length self.now }
        ensures { IsKeptOf (at_place self.now place) result }
    {
        kept_in(&self.slots, &self.lits, place)
    }

    // Counts the coefficients of 1 by literals.
    pub(crate) fn count_units(&self, counts: &mut [u32]) {
        for slot in &self.slots {
            count_slot(slot, &self.lits, counts);
        }
    }

    // Has nothing stand at the place, and hands out what was there.
    pub(crate) fn take(&mut self, place: usize) -> Slot
        requires { place < length self.old }
        ensures { self.new ≡ slice_set self.old place None }
    {
        mem::replace(&mut self.slots[place], Slot::Empty)
    }

    // Whether a clause is at the place that needs nothing, since two of its literals can still be true.
    pub(crate) fn is_easy(&self, place: usize, held: &Trail) -> bool
        ensures { IsTrue result → (c : Constraint) → Stands self.now place c → IsCalm (room held.now.lits c.terms) held.now.lits c }
    {
        is_easy_in(&self.slots, &self.lits, place, held)
    }

    // What the terms at the place can still add.
    pub(crate) fn room(&self, place: usize, held: &Trail) -> u128
        requires { (c : Constraint) → Stands self.now place c → weight c.terms ≤ 2 ^ 126 }
        ensures { (c : Constraint) → Stands self.now place c → result ≡ room held.now.lits c.terms }
    {
        room_in(&self.slots, &self.lits, place, held)
    }

    // Has all hold that the constraint at the place needs with so much room left, or says that this is too little.
    pub(crate) fn look(&self, place: usize, left: u128, held: &mut Trail) -> bool
        requires within { (c : Constraint) → Stands self.now place c → HasVarsWithin held.old.vars c.terms }
        requires bound { (c : Constraint) → Stands self.now place c → room held.old.lits c.terms ≤ left }
        ensures vars { held.new.vars ≡ held.old.vars }
        ensures advances { (given : List Lit) → Advances (standing self.now) given held.old.lits held.new.lits }
        ensures calm { OnTrue result ((c : Constraint) → Stands self.now place c → IsCalm left held.new.lits c) }
        ensures short { OnFalse result (HasTooLittle self.now held.new.lits place) }
    {
        look_at(&self.slots, &self.lits, place, left, held)
    }

    // The index of all that stands, as far as its literals are in a range, if there is memory.
    pub(crate) fn fill(&self, alloc: Global, lists: &mut Index, vars: u32, codes: Codes) -> bool
        requires within { StandWithin vars self.now }
        requires width { size_of lists.old ≡ 2 * vars + 2 }
        requires empty { (l : Lit) → IsInRange codes.low codes.high l → list_at lists.old l ≡ [] }
        ensures { OnTrue result (IsFilling codes.low codes.high lists.old lists.new (map terms_in self.now)) }
    {
        fill_range(alloc, lists, &self.slots, &self.lits, codes)
    }

    // The slack of what stands at the place. The room is that, if all literals that hold were told.
    pub(crate) fn slack(&self, place: usize, left: u128, told: bool, held: &Trail) -> Option<i128>
        requires told { IsTrue told → (c : Constraint) → Stands self.now place c → left ≡ room held.now.lits c.terms }
        requires narrow { (c : Constraint) → Stands self.now place c → weight c.terms ≤ 2 ^ 126 }
        ensures { result ≡ option_map (slack_of held.now.lits) (at_place self.now place) }
    {
        slack_in(&self.slots, &self.lits, place, left, told, held)
    }
}
