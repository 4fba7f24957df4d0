//! What removed constraints leave behind in the index, when it is swept, and which places are free.
//!
//! When a constraint is removed, its occurrences should be too; but to search the long lists of common literals for them would cost
//! more than the constraint's length. Mostly what is removed came late: the negation of a claim, listed constraints, a long sum that
//! the next one replaces. Such occurrences are in lists of the literals' own, outside the sections that were filled at first. So only
//! the newest eight of each of these lists are searched. If all are found, nothing remains, and the place is free at once.
//!
//! Else terms remain at a place that has no constraint. They do no harm: they lower a room that decides nothing, and the index is
//! right with any of them. They are counted. Once they are more than the places that there were at first, and later than half of what
//! the last sweep walked, one walk over the index removes them, without allocating (`sweep` in `store`). The list of tight places is
//! swept when more than half of it is garbage. So over a sequence of calls adding and removing cost the constraints' lengths, however
//! much else is live.
//!
//! All numbers here are hints, and no proof needs them to be right: `free_place` tests that a place has no constraint and the room 0.
ghost use Rattle.std.specs.Prelude.{◌≡◌, ◌≤◌, ◌<◌, length, None};
ghost use Rattle.std.specs.Bool.{OnTrue};
ghost use Rattle.pb_unit.specs.States.{at_place};
ghost use Rattle.pb_unit.specs.Index.{room_at};

use crate::kept::{Counters, room_of};
use crate::places::Places;
use std::alloc::Global;

/// What removed constraints have left behind. These are counts and hints: nothing is true by them.
#[derive(Drop)]
pub(crate) struct Garbage {
    /// So many terms may be left before a sweep pays for itself.
    limit: usize,
    /// So many terms are left.
    terms: usize,
    /// So many listed places are left.
    listed: usize,
    /// From this place on there may be a free one.
    next: usize,
    /// Places of which no term is left.
    free: Vec<u32>,
}

impl Garbage {
    // None yet, with so many places.
    pub(crate) fn new(alloc: Global, places: usize) -> Garbage {
        Garbage {
            limit: places,
            terms: 0,
            listed: 0,
            next: places,
            free: Vec::new(alloc),
        }
    }

    // Room to note each of so many places and one more, if there is memory.
    pub(crate) fn reserve(&mut self, places: usize) -> bool {
        if places < self.free.capacity() {
            return true;
        }
        self.free
            .reserve(places.saturating_add(places / 2 + 8))
            .is_ok()
    }

    // A place of which no term is left. There is room to note it, or it is found by the next sweep.
    fn note(&mut self, place: usize) {
        if place <= u32::MAX as usize && self.free.len() < self.free.capacity() {
            let _ = self.free.push(place as u32);
        }
    }

    // A constraint goes, and so many of its terms are left.
    pub(crate) fn count(&mut self, place: usize, terms: usize, is_listed: bool) {
        self.terms = self.terms.saturating_add(terms);
        if terms == 0 {
            self.note(place);
        }
        if is_listed {
            self.listed = self.listed.saturating_add(1);
        }
    }

    // A constraint came to the place.
    pub(crate) fn take(&mut self, place: usize) {
        self.next = self.next.max(place);
    }

    // Whether more terms are left than a sweep costs.
    pub(crate) fn is_due(&self) -> bool {
        self.terms > self.limit
    }

    // Whether more than half of so many listed places are left ones.
    pub(crate) fn is_crowded(&self, listed: usize) -> bool {
        self.listed > listed / 2
    }

    // No term is left any more, and so much stands.
    pub(crate) fn renew(&mut self, stands: usize) {
        self.limit = stands / 2;
        self.terms = 0;
        self.next = 0;
        self.free.clear();
    }

    // No listed place is left any more.
    pub(crate) fn renew_listed(&mut self) {
        self.listed = 0;
    }

    // A place without a constraint and without occurrences.
    pub(crate) fn free_place(&mut self, places: &Places, kept: &[Counters]) -> usize
        requires { length kept.now ≡ length places.now }
        ensures near { result ≤ length places.now }
        ensures empty { at_place places.now result ≡ None }
        ensures unused { room_at kept.now result ≡ 0 }
    {
        if let Some(place) = self.free.pop()
            && is_free(places, kept, place as usize)
        {
            return place as usize;
        }
        next_free(places, kept, self.next)
    }
}

// Whether a place has no constraint and no occurrences.
fn is_free(places: &Places, kept: &[Counters], place: usize) -> bool
    ensures { OnTrue result (place < length places.now × (at_place places.now place ≡ None) × (room_at kept.now place ≡ 0)) }
{
    place < places.len() && !places.stands(place) && room_of(kept, place) == 0
}

// The first place from one on without a constraint and without occurrences, or the next behind all.
fn next_free(places: &Places, kept: &[Counters], from: usize) -> usize
    requires { length kept.now ≡ length places.now }
    ensures near { result ≤ length places.now }
    ensures empty { at_place places.now result ≡ None }
    ensures unused { room_at kept.now result ≡ 0 }
{
    let mut place = from;
    while place < places.len() {
        if !places.stands(place) && room_of(kept, place) == 0 {
            return place;
        }
        place += 1;
    }
    places.len()
}
