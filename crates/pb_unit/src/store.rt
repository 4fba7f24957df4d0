//! Constraints at their places, with the index of their literals and their rooms.
ghost use Rattle.std.specs.Prelude.{◌≡◌, ◌≤◌, ◌<◌, ◌+◌, ◌^◌, ◌∷◌, ◌++◌, [], ◌⊎◌, ◌*◌, if◌then◌else◌, max, filter, IfOk, ℕ, length, Contains, IfSome, None, is_some, vec_capacity, slice_index_or, slice_set, IsTrue};
ghost use Rattle.std.specs.Bool.{OnTrue, OnFalse};
ghost use Rattle.pb_norm.specs.Constraints.{Constraint, weight, weighted, weights, HasVarsWithin};
ghost use Rattle.pb_unit.specs.States.{Stands, at_place, placed};
ghost use Rattle.pb_unit.specs.inner.Filling.{AreLaid};
ghost use Rattle.pb_base.specs.declared.literal.Lit.{Lit};
ghost use Rattle.pb_unit.specs.Index.{Enters, room_at, alert_at, IsCounted, IsEntered, IsStore};

use crate::garbage::Garbage;
use crate::index::{Index, Occurrence, code};
use crate::kept::{Counters, alert_of, lower, raise};
use crate::newest::newest_that;
use crate::places::{Places, Slot};
use crate::queue::Queue;
use crate::spot::Spot;
use pb_base::{Lit, NoMemory, Term};
use pb_norm::Linear;
use std::alloc::Global;

// Adds a term at a place to the index and to the room there, if there is memory.
fn enter_one(
    alloc: Global,
    lists: &mut Index,
    kept: &mut [Counters],
    spot: &Spot,
    term: &Term,
) -> bool
    requires within { term.now.lit.var ≤ spot.now.vars }
    requires known { spot.now.place < length kept.old }
    requires fits { room_at kept.old spot.now.place + (weighted term.now).coef ≤ 2 ^ 126 }
    requires counts { IsCounted spot.now.vars spot.now.places.now lists.old kept.old [] }
    ensures entered { OnTrue result (Enters spot.now.vars spot.now.places.now spot.now.place (weighted term.now) lists.old kept.old lists.new kept.new) }
    ensures refused { OnFalse result (IsCounted spot.now.vars spot.now.places.now lists.new kept.new []) }
    ensures alerts { (p : ℕ) → alert_at kept.new p ≡ alert_at kept.old p }
{
    let place = spot.place;
    let coef = term.weight();
    if !lists.push(alloc, &term.lit, place, coef) {
        return false;
    }
    raise(kept, &Occurrence { place, coef });
    true
}

// Adds terms at a place, as long as there is memory.
fn enter_all(
    alloc: Global,
    lists: &mut Index,
    kept: &mut [Counters],
    spot: &Spot,
    terms: &[Term],
) -> bool
    requires within { HasVarsWithin spot.now.vars (weights terms.now) }
    requires known { spot.now.place < length kept.old }
    requires fits { weight (weights terms.now) ≤ 2 ^ 126 }
    requires entered { IsEntered spot.now.vars spot.now.places.now lists.old kept.old spot.now.place [] }
    ensures entered { OnTrue result (IsEntered spot.now.vars spot.now.places.now lists.new kept.new spot.now.place (weights terms.now)) }
    ensures refused { OnFalse result (IsCounted spot.now.vars spot.now.places.now lists.new kept.new []) }
    ensures alerts { (p : ℕ) → alert_at kept.new p ≡ alert_at kept.old p }
{
    for term in terms {
        if !enter_one(alloc, lists, kept, spot, term) {
            return false;
        }
    }
    true
}

// An entry for the place, if there is memory.
fn grow(kept: &mut Vec<Counters>, lists: &Index, spot: &Spot) -> bool
    requires near { spot.now.place ≤ length kept.old.items }
    requires counts { IsCounted spot.now.vars spot.now.places.now lists.now kept.old.items [] }
    ensures counts { IsCounted spot.now.vars spot.now.places.now lists.now kept.new.items [] }
    ensures alerts { (p : ℕ) → alert_at kept.new.items p ≡ alert_at kept.old.items p }
    ensures rooms { (p : ℕ) → room_at kept.new.items p ≡ room_at kept.old.items p }
    ensures known { OnTrue result (spot.now.place < length kept.new.items) }
    ensures size { length kept.new.items ≤ max (length kept.old.items) (spot.now.place + 1) }
{
    if spot.place < kept.len() {
        return true;
    }
    let none = Counters { room: 0, alert: 0 };
    kept.push(none).is_ok()
}

// Adds the terms of a constraint at a place, if there is memory.
fn enter(
    alloc: Global,
    lists: &mut Index,
    kept: &mut Vec<Counters>,
    spot: &Spot,
    constraint: &Linear,
) -> bool
    requires within { HasVarsWithin spot.now.vars constraint.now.terms }
    requires near { spot.now.place ≤ length kept.old.items }
    requires unused { room_at kept.old.items spot.now.place ≡ 0 }
    requires counts { IsCounted spot.now.vars spot.now.places.now lists.old kept.old.items [] }
    ensures entered { OnTrue result (IsEntered spot.now.vars spot.now.places.now lists.new kept.new.items spot.now.place constraint.now.terms) }
    ensures refused { OnFalse result (IsCounted spot.now.vars spot.now.places.now lists.new kept.new.items []) }
    ensures alerts { (p : ℕ) → alert_at kept.new.items p ≡ alert_at kept.old.items p }
    ensures known { OnTrue result (spot.now.place < length kept.new.items) }
    ensures size { length kept.new.items ≤ max (length kept.old.items) (spot.now.place + 1) }
{
    if !grow(kept, lists, spot) {
        return false;
    }
    enter_all(alloc, lists, kept, spot, constraint.terms())
}

// Has no room at places where no constraint stands.
fn sweep_rooms(kept: &mut [Counters], places: &Places)
    ensures clean { (p : ℕ) → at_place places.now p ≡ None → room_at kept.new p ≡ 0 }
    ensures others { (p : ℕ) (c : Constraint) → Stands places.now p c → room_at kept.new p ≡ room_at kept.old p }
    ensures alerts { (p : ℕ) → alert_at kept.new p ≡ alert_at kept.old p }
{
    for place in 0..kept.len() {
        if !places.stands(place) {
            kept[place].room = 0;
        }
    }
}

// Drops what is left of constraints that do not stand.
pub(crate) fn sweep(lists: &mut Index, kept: &mut Vec<Counters>, vars: u32, places: &Places)
    requires counts { IsCounted vars places.now lists.old kept.old.items [] }
    ensures counts { IsCounted vars places.now lists.new kept.new.items [] }
    ensures alerts { (p : ℕ) (c : Constraint) → Stands places.now p c → alert_at kept.new.items p ≡ alert_at kept.old.items p }
    ensures even { length kept.new.items ≡ length places.now }
{
    kept.truncate(places.len());
    lists.sweep(places);
    sweep_rooms(kept, places);
}

// One more place, for which there is room.
fn list_place(tight: &mut Vec<usize>, place: usize)
    requires { length tight.old.items < vec_capacity tight.old }
    ensures { tight.new.items ≡ tight.old.items ++ place ∷ [] }
{
    match tight.push(place) {
        Ok(()) => {}
        Err(_) => {}
    }
}

// Keeps the alert of a constraint at a place, which is listed where its room is less.
fn settle(kept: &mut [Counters], tight: &mut Vec<usize>, place: usize, alert: u128)
    requires known { place < length kept.old }
    requires free { length tight.old.items < vec_capacity tight.old }
    ensures rooms { (p : ℕ) → room_at kept.new p ≡ room_at kept.old p }
    ensures alert { alert_at kept.new place ≡ alert }
    ensures others { (p : ℕ) → (p ≡ place → ⊥) → alert_at kept.new p ≡ alert_at kept.old p }
    ensures listed { (alert_at kept.new place ≤ room_at kept.old place) ⊎ Contains tight.new.items place }
    ensures more { (p : ℕ) → Contains tight.old.items p → Contains tight.new.items p }
{
    let at = &mut kept[place];
    at.alert = alert;
    if at.room < alert {
        list_place(tight, place);
    }
}

// One more place, where that is asked for and there is memory.
fn list_if(tight: &mut Vec<usize>, place: usize, asked: bool) -> bool
    ensures listed { OnTrue result (IsTrue asked → Contains tight.new.items place) }
    ensures more { OnTrue result ((p : ℕ) → Contains tight.old.items p → Contains tight.new.items p) }
{
    if !asked {
        return true;
    }
    tight.push(place).is_ok()
}

// One more room that is kept, if there is memory.
fn keep(kept: &mut Vec<Counters>, at: Counters) -> bool
    ensures { OnTrue result (kept.new.items ≡ kept.old.items ++ at ∷ []) }
{
    kept.push(at).is_ok()
}

// What is kept of the next place, which is listed where the room there is less than the alert, if there is memory.
fn lay(kept: &mut Vec<Counters>, tight: &mut Vec<usize>, place: usize, at: Counters) -> bool
    ensures kept { OnTrue result (kept.new.items ≡ kept.old.items ++ at ∷ []) }
    ensures listed { OnTrue result ((at.alert ≤ at.room) ⊎ Contains tight.new.items place) }
    ensures more { OnTrue result ((p : ℕ) → Contains tight.old.items p → Contains tight.new.items p) }
{
    list_if(tight, place, at.room < at.alert) && keep(kept, at)
}

// What is kept of all places, if there is memory.
fn lay_all(places: &Places, kept: &mut Vec<Counters>, tight: &mut Vec<usize>) -> bool
    requires { kept.old.items ≡ [] }
    ensures { OnTrue result (AreLaid places.now kept.new.items tight.new.items) }
{
    for place in 0..places.len() {
        if !lay(kept, tight, place, places.kept(place)) {
            return false;
        }
    }
    true
}

// What is kept of all places, and which are tight.
pub(crate) fn counters_of(
    alloc: Global,
    places: &Places,
) -> Result<(Vec<Counters>, Vec<usize>), NoMemory>
    ensures { IfOk result (λ r. AreLaid places.now r.0.items r.1.items) }
{
    let mut kept = Vec::with_capacity(alloc, places.len())?;
    let mut tight = Vec::new(alloc);
    if lay_all(places, &mut kept, &mut tight) {
        Ok((kept, tight))
    } else {
        Err(NoMemory)
    }
}

// Takes an occurrence of a literal at a place where nothing stands out of the index, and its part out of the room there. Whether one was found.
fn unlist_one(lists: &mut Index, kept: &mut [Counters], spot: &Spot, lit: &Lit) -> bool
    requires { IsCounted spot.now.vars spot.now.places.now lists.old kept.old [] }
    ensures counts { IsCounted spot.now.vars spot.now.places.now lists.new kept.new [] }
    ensures alerts { (p : ℕ) → alert_at kept.new p ≡ alert_at kept.old p }
{
    match lists.take(lit, spot.place) {
        Some(occurrence) => {
            lower(kept, &occurrence);
            true
        }
        None => false,
    }
}

// The same for terms. How many are left.
fn unlist(lists: &mut Index, kept: &mut [Counters], spot: &Spot, terms: &[Term]) -> usize
    requires { IsCounted spot.now.vars spot.now.places.now lists.old kept.old [] }
    ensures counts { IsCounted spot.now.vars spot.now.places.now lists.new kept.new [] }
    ensures alerts { (p : ℕ) → alert_at kept.new p ≡ alert_at kept.old p }
{
    let mut left: usize = 0;
    for term in terms {
        if !unlist_one(lists, kept, spot, &term.lit) {
            left = left.saturating_add(1);
        }
    }
    left
}

// The same for what stood at the place. The literals of a clause that came in order are left.
fn unlist_slot(
    lists: &mut Index,
    kept: &mut Vec<Counters>,
    tight: &Vec<usize>,
    spot: &Spot,
    gone: &Slot,
) -> usize
    requires { IsStore spot.now.vars spot.now.places.now lists.old kept.old.items tight.now.items }
    ensures { IsStore spot.now.vars spot.now.places.now lists.new kept.new.items tight.now.items }
{
    match gone {
        Slot::Clause { len, .. } => *len as usize,
        Slot::General(alone) => unlist(lists, kept, spot, alone.terms()),
        Slot::Empty => 0,
    }
}

// Where a place is among the newest that are listed, if it is.
fn newest_listed(tight: &[usize], place: usize) -> Option<usize>
    ensures below { IfSome result (λ i. i < length tight.now) }
    ensures at { IfSome result (λ i. (d : ℕ) → slice_index_or tight.now i d ≡ place) }
{
    newest_that(tight, |listed| *listed == place)
}

// Takes a place where nothing stands out of the list, where it is among the newest there. Whether it may still be listed.
fn unlist_place(lists: &Index, kept: &Vec<Counters>, tight: &mut Vec<usize>, spot: &Spot) -> bool
    requires { IsStore spot.now.vars spot.now.places.now lists.now kept.now.items tight.old.items }
    ensures { IsStore spot.now.vars spot.now.places.now lists.now kept.now.items tight.new.items }
{
    if !is_tight(kept, spot.place) {
        return false;
    }
    match newest_listed(tight, spot.place) {
        Some(index) => {
            tight.remove(index);
            false
        }
        None => true,
    }
}

// Lists only places where a constraint stands.
pub(crate) fn prune(tight: &mut Vec<usize>, places: &Places)
    ensures { tight.new.items ≡ filter (λ p. is_some (at_place places.now p)) tight.old.items }
{
    tight.retain(|place| places.stands(*place));
}

// Drops what is left of constraints that do not stand, where that is due.
fn sweep_if(
    due: bool,
    lists: &mut Index,
    kept: &mut Vec<Counters>,
    tight: &[usize],
    vars: u32,
    places: &Places,
)
    requires { IsStore vars places.now lists.old kept.old.items tight.now }
    ensures { IsStore vars places.now lists.new kept.new.items tight.now }
{
    if due {
        sweep(lists, kept, vars, places);
    }
}

// Lists only places where a constraint stands, where that is due.
fn prune_if(
    due: bool,
    lists: &Index,
    kept: &[Counters],
    tight: &mut Vec<usize>,
    vars: u32,
    places: &Places,
)
    requires { IsStore vars places.now lists.now kept.now tight.old.items }
    ensures { IsStore vars places.now lists.now kept.now tight.new.items }
{
    if due {
        prune(tight, places);
    }
}

// Drops what is left of constraints that do not stand, as far as that is due.
fn tidy(
    garbage: &mut Garbage,
    lists: &mut Index,
    kept: &mut Vec<Counters>,
    tight: &mut Vec<usize>,
    vars: u32,
    places: &Places,
)
    requires { IsStore vars places.now lists.old kept.old.items tight.old.items }
    ensures { IsStore vars places.now lists.new kept.new.items tight.new.items }
{
    let due = garbage.is_due();
    let crowded = garbage.is_crowded(tight.len());
    sweep_if(due, lists, kept, tight, vars, places);
    prune_if(crowded, lists, kept, tight, vars, places);
    if due {
        garbage.renew(lists.len().saturating_add(places.len()));
    }
    if crowded {
        garbage.renew_listed();
    }
}

// Whether the room at a place is less than its alert.
pub(crate) fn is_tight(kept: &[Counters], place: usize) -> bool {
    match kept.get(place) {
        Some(at) => at.room < at.alert,
        None => false,
    }
}

impl Queue {
    ghost use Rattle.pb_unit.specs.Counters.{IsUntold, OthersStay};

    // A constraint at a place, with its terms in the index, if there is memory. Else nothing stands that did not stand before.
    fn enter_and_put(&mut self, alloc: Global, place: usize, constraint: Linear) -> bool
        requires store { IsUntold self.old }
        requires within { HasVarsWithin self.old.held.vars constraint.terms }
        requires near { place ≤ length self.old.places }
        requires empty { at_place self.old.places place ≡ None }
        requires unused { room_at self.old.kept.items place ≡ 0 }
        ensures stay { OthersStay self.old self.new }
        ensures tight { self.new.tight ≡ self.old.tight }
        ensures placed { self.new.places ≡ (if result then placed place constraint self.old.places else self.old.places) }
        ensures entered { OnTrue result (IsEntered self.old.held.vars self.old.places self.new.lists self.new.kept.items place constraint.terms) }
        ensures refused { OnFalse result (IsCounted self.old.held.vars self.old.places self.new.lists self.new.kept.items []) }
        ensures alerts { (p : ℕ) → alert_at self.new.kept.items p ≡ alert_at self.old.kept.items p }
        ensures known { OnTrue result (place < length self.new.kept.items) }
        ensures size { length self.new.kept.items ≤ max (length self.old.kept.items) (place + 1) }
    {
        let spot = Spot {
            vars: self.held.vars(),
            places: &self.places,
            place,
        };
        if !enter(alloc, &mut self.lists, &mut self.kept, &spot, &constraint) {
            return false;
        }
        self.places.put(alloc, place, constraint)
    }

    // A constraint at a free place, if there is memory. Else nothing stands that did not stand before.
    pub(crate) fn put(&mut self, alloc: Global, place: usize, constraint: Linear) -> bool
        requires store { IsUntold self.old }
        requires within { HasVarsWithin self.old.held.vars constraint.terms }
        requires near { place ≤ length self.old.places }
        requires empty { at_place self.old.places place ≡ None }
        requires unused { room_at self.old.kept.items place ≡ 0 }
        ensures stay { OthersStay self.old self.new }
        ensures placed { self.new.places ≡ (if result then placed place constraint self.old.places else self.old.places) }
        ensures store { IsUntold self.new }
    {
        if self.tight.reserve(1).is_err() {
            return false;
        }
        let alert = alert_of(&constraint);
        if !self.enter_and_put(alloc, place, constraint) {
            sweep(
                &mut self.lists,
                &mut self.kept,
                self.held.vars(),
                &self.places,
            );
            return false;
        }
        settle(&mut self.kept, &mut self.tight, place, alert);
        true
    }

    // Has nothing stand at a place. What is left of the constraint goes as far as it is found, and the rest where that is due.
    pub(crate) fn let_go(&mut self, garbage: &mut Garbage, place: usize)
        requires known { place < length self.old.places }
        requires store { IsUntold self.old }
        ensures stay { OthersStay self.old self.new }
        ensures removed { self.new.places ≡ slice_set self.old.places place None }
        ensures store { IsUntold self.new }
    {
        let gone = self.places.take(place);
        let vars = self.held.vars();
        let spot = Spot {
            vars,
            places: &self.places,
            place,
        };
        let listed = unlist_place(&self.lists, &self.kept, &mut self.tight, &spot);
        let terms = unlist_slot(&mut self.lists, &mut self.kept, &self.tight, &spot, &gone);
        garbage.count(place, terms, listed);
        tidy(
            garbage,
            &mut self.lists,
            &mut self.kept,
            &mut self.tight,
            vars,
            &self.places,
        );
    }
}
