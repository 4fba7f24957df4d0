//! Propagation by passes over all constraints, which need no index.
//!
//! To make an engine's index takes as long as some eight passes. So up to eight are made first (`MOST_PASSES`), each from what the
//! last one reached: in the order of the places, each constraint makes the literals true that it needs. If a pass adds none, that is
//! the end, since each constraint was visited with all that is true; if a constraint has too little room, that is a conflict. Only if
//! literals are still added in the eighth pass does the caller make an engine, from the given literals on. So no order of the
//! constraints costs more than about twice the time.
//!
//! Clauses from encoders mostly end after few passes, since a clause comes after those from which its literals follow. And most
//! clauses need nothing: two literals that are not false show it, and the others are not looked at (`is_easy`).
ghost use Rattle.std.specs.Prelude.{◌≡◌, ◌≤◌, ◌+◌, ◌^◌, [], ℕ, List, Option, All, length, IsNone, IfSome};
ghost use Rattle.std.specs.Bool.{OnTrue, OnFalse};
ghost use Rattle.pb_base.specs.declared.literal.Lit.{Lit};
ghost use Rattle.pb_norm.specs.Constraints.{Constraint, weight};
ghost use Rattle.pb_norm.specs.Forced.{IsConsistent};
ghost use Rattle.pb_norm.specs.Propagation.{room};
ghost use Rattle.pb_unit.specs.Ends.{Ends};
ghost use Rattle.pb_unit.specs.States.{StandWithin, Stands, standing, IsReached};
ghost use Rattle.pb_unit.specs.Steps.{Advances, IsCalm, HasTooLittle};

use crate::engine::Outcome;
use crate::places::Places;
use crate::trail::Trail;
use pb_base::Lit;

// So many passes cost about as much as the index of an engine. Where they do not reach the end, an engine takes no more than
// twice the time.
const MOST_PASSES: usize = 8;

// Has literals hold of which no two are opposite.
pub(crate) fn hold_all(lits: &[Lit], held: &mut Trail)
    requires none { held.old.lits ≡ [] }
    requires within { All (λ l. l.var ≤ held.old.vars) lits.now }
    requires consistent { IsConsistent lits.now }
    ensures vars { held.new.vars ≡ held.old.vars }
    ensures reached { (ps : List (Option Constraint)) → IsReached (record { vars = held.new.vars; places = ps; given = lits.now; held = held.new.lits }) }
{
    for lit in lits {
        held.add(lit);
    }
}

// Has all hold that what stands at a place needs, or says that its room is too little.
fn settle_at(places: &Places, place: usize, held: &mut Trail) -> bool
    requires within { StandWithin held.old.vars places.now }
    requires narrow { (c : Constraint) → Stands places.now place c → weight c.terms ≤ 2 ^ 126 }
    ensures vars { held.new.vars ≡ held.old.vars }
    ensures advances { (given : List Lit) → Advances (standing places.now) given held.old.lits held.new.lits }
    ensures calm { OnTrue result ((c : Constraint) → Stands places.now place c → IsCalm (room held.old.lits c.terms) held.new.lits c) }
    ensures short { OnFalse result (HasTooLittle places.now held.new.lits place) }
{
    // In most clauses two literals are soon found that can be true.
    if places.is_easy(place, held) {
        return true;
    }
    let left = places.room(place, held);
    places.look(place, left, held)
}

// Has all hold that what stands needs, place by place. The place is that of one with too little room.
fn pass(places: &Places, held: &mut Trail) -> Option<usize>
    requires within { StandWithin held.old.vars places.now }
    requires narrow { (p : ℕ) (c : Constraint) → Stands places.now p c → weight c.terms ≤ 2 ^ 126 }
    ensures vars { held.new.vars ≡ held.old.vars }
    ensures advances { (given : List Lit) → Advances (standing places.now) given held.old.lits held.new.lits }
    ensures calm { IsNone result → (p : ℕ) (c : Constraint) → Stands places.now p c → IsCalm (room held.old.lits c.terms) held.new.lits c }
    ensures short { IfSome result (HasTooLittle places.now held.new.lits) }
{
    for place in 0..places.len() {
        if !settle_at(places, place, held) {
            return Some(place);
        }
    }
    None
}

// Passes over all that stands, as long as literals join and these are few passes. How that ended, if it did.
pub(crate) fn settle(places: &Places, held: &mut Trail) -> Option<Outcome>
    requires within { StandWithin held.old.vars places.now }
    requires narrow { (p : ℕ) (c : Constraint) → Stands places.now p c → weight c.terms ≤ 2 ^ 126 }
    ensures vars { held.new.vars ≡ held.old.vars }
    ensures advances { (given : List Lit) → Advances (standing places.now) given held.old.lits held.new.lits }
    ensures ends { IfSome result (Ends places.now held.new.lits) }
    ensures more { IsNone result → length held.old.lits + 8 ≤ length held.new.lits }
{
    for _pass in 0..MOST_PASSES {
        let before = held.len();
        if let Some(place) = pass(places, held) {
            return Some(Outcome::Conflict {
                place: place as u64,
            });
        }
        if held.len() == before {
            return Some(Outcome::Fixed);
        }
    }
    None
}
