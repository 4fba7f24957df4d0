//! Unit propagation with a counter for each constraint, an index of literals, and a queue.
//!
//! The room of a constraint is the sum of the coefficients of its literals that are not false: what its left side can still reach.
//! Its slack is the room less the degree. If the room is below the degree, the constraint is in conflict. Else it needs each literal
//! that is neither true nor false and whose coefficient is above the slack. Rooms are stored, and not slacks, since a room is a
//! natural number.
//!
//! The literals that are true form one list, the oldest first (`held`). The first `counted` of them have lowered the room of each
//! constraint with their negation; the others are the queue, so there is no second list. Propagation takes the next one, walks the
//! list of its negation in the index, and lowers each room by the coefficient there. A constraint's terms are looked at only if its
//! room falls below its alert, the degree and the greatest coefficient together: from there on up it needs nothing, whatever is true.
//! What it needs is added at the end of the list of true literals, so the queue grows while it is worked off.
//!
//! Three things need care.
//!
//! - A constraint may need literals before any is true. If its room is below its alert from the start, it is listed when it is
//!   added (`tight`), and propagation begins with these (`Unpropagated`).
//! - After a conflict the rooms of the rest of the literal's list are lowered all the same, so each true literal was counted in all
//!   rooms or in none. The place of the conflict is remembered (`Conflicting`), since more assumptions cannot undo it.
//! - `reset`, `add` and `remove` take all assumptions back: `rewind` raises the rooms of what was counted, the newest literal
//!   first, in the time that lowering them took. So no list of true literals has to be unwound past a change of the constraints.
ghost use Rattle.std.specs.Prelude.{◌≡◌, ◌≤◌, ◌<◌, ◌+◌, ◌∷◌, [], ℕ, List, length, map, All, IfOk, IfSome, IsNone};
ghost use Rattle.std.specs.Bool.{OnTrue, OnFalse};
ghost use Rattle.pb_base.specs.declared.literal.Lit.{Lit};
ghost use Rattle.pb_norm.specs.Constraints.{Constraint, weight};
ghost use Rattle.pb_norm.specs.Propagation.{room};
ghost use Rattle.pb_unit.specs.States.{StandWithin, Stands, standing};
ghost use Rattle.pb_unit.specs.Steps.{Advances, HasTooLittle};
ghost use Rattle.pb_unit.specs.Trails.{oldest};
ghost use Rattle.pb_unit.specs.Index.{code, size_of, unit_at, list_at, IsStore, AreListed, AreAlerts, room_at, alert_at, IsCalmAt, AreCalm, AreLowered, IsTold, IsCounted};
ghost use Rattle.pb_unit.specs.Counters.{IsUntold, IsInQueue, IsAtNow};
ghost use Rattle.pb_unit.specs.inner.Tellable.{AreRaisable, AreTellable, IsTellable};
ghost use Rattle.pb_unit.specs.Ends.{Ends};
ghost use Rattle.pb_unit.specs.declared.queue.Phase.TheVariants.{Unpropagated};

use crate::engine::Outcome;
use crate::filling::index_of;
use crate::index::{Index, Occurrence};
use crate::kept::{Counters, lower, raise_all, raise_units, room_of};
use crate::places::Places;
use crate::store;
use crate::trail::Trail;
use pb_base::{Lit, NoMemory};
use std::alloc::Global;

/// How far propagation has come.
#[derive(Clone, Copy)]
pub(crate) enum Phase {
    /// No literal was told, and no constraint was looked at.
    Unpropagated,
    /// Each constraint is calm with its room.
    Fixpoint,
    /// The constraint at the place has too little room.
    Conflicting(usize),
}

/// Constraints with their index and rooms, the literals that hold, and how many of those, the oldest, the rooms count.
pub(crate) struct Queue {
    pub(crate) places: Places,
    pub(crate) kept: Vec<Counters>,
    pub(crate) lists: Index,
    pub(crate) tight: Vec<usize>,
    pub(crate) held: Trail,
    pub(crate) counted: usize,
    pub(crate) phase: Phase,
}

// Written out: one call in the proof of a function that owns it.
impl Drop for Queue {
    fn drop(self) {
        let Queue {
            places: _,
            kept: _,
            lists: _,
            tight: _,
            held: _,
            counted: _,
            phase: _,
        } = self;
    }
}

// Tells a literal to a constraint in which its negation stands. Whether the constraint has room enough.
fn tell_one(
    places: &Places,
    kept: &mut [Counters],
    occurrence: &Occurrence,
    held: &mut Trail,
) -> bool
    requires { IsTellable held.old.vars places.now kept.old held.old.lits occurrence.now }
    ensures vars { held.new.vars ≡ held.old.vars }
    ensures lowered { AreLowered (occurrence.now ∷ []) kept.old kept.new }
    ensures advances { (given : List Lit) → Advances (standing places.now) given held.old.lits held.new.lits }
    ensures calm { OnTrue result (IsCalmAt places.now kept.new held.new.lits occurrence.now.place) }
    ensures short { OnFalse result (HasTooLittle places.now held.new.lits occurrence.now.place) }
{
    if !lower(kept, occurrence) {
        return true;
    }
    places.look(occurrence.place, room_of(kept, occurrence.place), held)
}

// The same, where no constraint had too little room so far. Else only the room is counted.
fn tell_next(
    places: &Places,
    kept: &mut [Counters],
    occurrence: &Occurrence,
    short: Option<usize>,
    held: &mut Trail,
) -> Option<usize>
    requires tell { IsTellable held.old.vars places.now kept.old held.old.lits occurrence.now }
    requires short { IfSome short (HasTooLittle places.now held.old.lits) }
    ensures vars { held.new.vars ≡ held.old.vars }
    ensures told { IsTold places.now (occurrence.now ∷ []) kept.old kept.new held.old.lits held.new.lits result }
    ensures still { IsNone result → IsNone short }
{
    if let Some(place) = short {
        lower(kept, occurrence);
        return Some(place);
    }
    if tell_one(places, kept, occurrence, held) {
        return None;
    }
    Some(occurrence.place)
}

// Tells a literal to the constraints in which its negation stands with the coefficient 1. The place is that of one with too little room.
fn tell_units(
    places: &Places,
    kept: &mut [Counters],
    units: &[u32],
    held: &mut Trail,
) -> Option<usize>
    requires { AreTellable held.old.vars places.now kept.old held.old.lits (map unit_at units.now) }
    ensures vars { held.new.vars ≡ held.old.vars }
    ensures told { IsTold places.now (map unit_at units.now) kept.old kept.new held.old.lits held.new.lits result }
{
    let mut short = None;
    for place in units {
        let occurrence = Occurrence {
            place: *place as usize,
            coef: 1,
        };
        short = tell_next(places, kept, &occurrence, short, held);
    }
    short
}

// Tells a literal to more constraints in which its negation stands. The place is that of one with too little room, as before these or here.
fn tell_all(
    places: &Places,
    kept: &mut [Counters],
    occurrences: &[Occurrence],
    before: Option<usize>,
    held: &mut Trail,
) -> Option<usize>
    requires tell { AreTellable held.old.vars places.now kept.old held.old.lits occurrences.now }
    requires short { IfSome before (HasTooLittle places.now held.old.lits) }
    ensures vars { held.new.vars ≡ held.old.vars }
    ensures told { IsTold places.now occurrences.now kept.old kept.new held.old.lits held.new.lits result }
    ensures still { IsNone result → IsNone before }
{
    let mut short = before;
    for occurrence in occurrences {
        short = tell_next(places, kept, occurrence, short, held);
    }
    short
}

// Tells a literal to all constraints in which its negation stands. The place is that of one with too little room.
fn tell_both(
    places: &Places,
    kept: &mut [Counters],
    lists: &Index,
    falsified: &Lit,
    held: &mut Trail,
) -> Option<usize>
    requires listed { code falsified.now < size_of lists.now }
    requires tell { AreTellable held.old.vars places.now kept.old held.old.lits (list_at lists.now falsified.now) }
    ensures vars { held.new.vars ≡ held.old.vars }
    ensures told { IsTold places.now (list_at lists.now falsified.now) kept.old kept.new held.old.lits held.new.lits result }
{
    let short = tell_units(places, kept, lists.units(falsified), held);
    tell_all(places, kept, lists.others(falsified), short, held)
}

// Tells the next literal that holds.
fn tell(
    places: &Places,
    kept: &mut [Counters],
    lists: &Index,
    held: &mut Trail,
    counted: usize,
) -> Option<usize>
    requires within { StandWithin held.old.vars places.now }
    requires counts { IsCounted held.old.vars places.now lists.now kept.old (oldest counted held.old.lits) }
    requires calm { AreCalm places.now kept.old held.old.lits }
    requires next { counted < length held.old.lits }
    ensures vars { held.new.vars ≡ held.old.vars }
    ensures advances { (given : List Lit) → Advances (standing places.now) given held.old.lits held.new.lits }
    ensures counts { IsCounted held.new.vars places.now lists.now kept.new (oldest (counted + 1) held.new.lits) }
    ensures alerts { (p : ℕ) → alert_at kept.new p ≡ alert_at kept.old p }
    ensures calm { IsNone result → AreCalm places.now kept.new held.new.lits }
    ensures short { IfSome result (HasTooLittle places.now held.new.lits) }
{
    let falsified = held.nth(counted).not();
    tell_both(places, kept, lists, &falsified, held)
}

// Looks at the constraints that are listed. The place is that of one with too little room.
fn look_all(places: &Places, kept: &[Counters], tight: &[usize], held: &mut Trail) -> Option<usize>
    requires within { StandWithin held.old.vars places.now }
    requires bound { (p : ℕ) (c : Constraint) → Stands places.now p c → room held.old.lits c.terms ≤ room_at kept.now p }
    ensures vars { held.new.vars ≡ held.old.vars }
    ensures advances { (given : List Lit) → Advances (standing places.now) given held.old.lits held.new.lits }
    ensures calm { IsNone result → All (IsCalmAt places.now kept.now held.new.lits) tight.now }
    ensures short { IfSome result (HasTooLittle places.now held.new.lits) }
{
    for place in tight {
        if !places.look(*place, room_of(kept, *place), held) {
            return Some(*place);
        }
    }
    None
}

// Tells the literals that hold, one after another, until nothing more joins.
fn tell_rest(
    places: &Places,
    kept: &mut [Counters],
    lists: &Index,
    held: &mut Trail,
    counted: &mut usize,
) -> Option<usize>
    requires within { StandWithin held.old.vars places.now }
    requires in_held { counted.old ≤ length held.old.lits }
    requires counts { IsCounted held.old.vars places.now lists.now kept.old (oldest counted.old held.old.lits) }
    requires calm { AreCalm places.now kept.old held.old.lits }
    ensures vars { held.new.vars ≡ held.old.vars }
    ensures advances { (given : List Lit) → Advances (standing places.now) given held.old.lits held.new.lits }
    ensures in_held { counted.new ≤ length held.new.lits }
    ensures counts { IsCounted held.new.vars places.now lists.now kept.new (oldest counted.new held.new.lits) }
    ensures alerts { (p : ℕ) → alert_at kept.new p ≡ alert_at kept.old p }
    ensures calm { IsNone result → (length held.new.lits ≤ counted.new) × AreCalm places.now kept.new held.new.lits }
    ensures short { IfSome result (HasTooLittle places.now held.new.lits) }
{
    'queue: while *counted < held.len() {
        let next = *counted;
        *counted += 1;
        if let Some(place) = tell(places, kept, lists, held, next) {
            return Some(place);
        }
    }
    None
}

// Looks at the listed constraints, where none was looked at yet. The place is that of one with too little room.
fn begin(
    places: &Places,
    kept: &[Counters],
    tight: &[usize],
    held: &mut Trail,
    phase: Phase,
) -> Option<usize>
    requires within { StandWithin held.old.vars places.now }
    requires bound { (p : ℕ) (c : Constraint) → Stands places.now p c → room held.old.lits c.terms ≤ room_at kept.now p }
    requires full { phase ≡ Phase.Unpropagated → (p : ℕ) (c : Constraint) → Stands places.now p c → room_at kept.now p ≡ weight c.terms }
    requires listed { AreListed places.now kept.now tight.now }
    requires alerts { AreAlerts places.now kept.now }
    requires at { IsAtNow phase places.now kept.now held.old.lits }
    ensures vars { held.new.vars ≡ held.old.vars }
    ensures advances { (given : List Lit) → Advances (standing places.now) given held.old.lits held.new.lits }
    ensures calm { IsNone result → AreCalm places.now kept.now held.new.lits }
    ensures short { IfSome result (HasTooLittle places.now held.new.lits) }
{
    match phase {
        Phase::Unpropagated => look_all(places, kept, tight, held),
        Phase::Fixpoint => None,
        Phase::Conflicting(place) => Some(place),
    }
}

// Gives the coefficients of a literal back to the rooms.
fn raise_both(kept: &mut [Counters], lists: &Index, lit: &Lit)
    requires listed { code lit.now < size_of lists.now }
    requires raise { AreRaisable kept.old (list_at lists.now lit.now) }
    ensures { AreLowered (list_at lists.now lit.now) kept.new kept.old }
{
    raise_units(kept, lists.units(lit));
    raise_all(kept, lists.others(lit));
}

// Counts no literal in the rooms any more. This takes as long as it took to count them.
pub(crate) fn uncount(
    places: &Places,
    kept: &mut [Counters],
    lists: &Index,
    held: &Trail,
    counted: usize,
)
    requires in_held { counted ≤ length held.now.lits }
    requires counts { IsCounted held.now.vars places.now lists.now kept.old (oldest counted held.now.lits) }
    ensures counts { IsCounted held.now.vars places.now lists.now kept.new [] }
    ensures alerts { (p : ℕ) → alert_at kept.new p ≡ alert_at kept.old p }
{
    let mut left = counted;
    while left > 0 {
        left -= 1;
        let falsified = held.nth(left).not();
        raise_both(kept, lists, &falsified);
    }
}

impl Queue {
    // Over what stands. No literal holds, and nothing was looked at.
    pub(crate) fn over(alloc: Global, vars: u32, places: Places) -> Result<Queue, NoMemory>
        requires within { StandWithin vars places }
        ensures places { IfOk result (λ q. q.places ≡ places) }
        ensures held { IfOk result (λ q. q.held ≡ record { vars = vars; lits = [] }) }
        ensures store { IfOk result (λ q. IsStore vars places q.lists q.kept.items q.tight.items) }
        ensures counted { IfOk result (λ q. q.counted ≡ 0) }
        ensures phase { IfOk result (λ q. q.phase ≡ Unpropagated) }
    {
        let held = Trail::new(alloc, vars)?;
        let (kept, tight) = store::counters_of(alloc, &places)?;
        let lists = index_of(alloc, vars, &places)?;
        Ok(Queue {
            places,
            kept,
            lists,
            tight,
            held,
            counted: 0,
            phase: Phase::Unpropagated,
        })
    }

    // The literals that hold. The constraints are let go.
    pub(crate) fn into_held(self) -> Trail
        ensures { result ≡ self.held }
    {
        let Queue {
            places: _,
            kept: _,
            lists: _,
            tight: _,
            held,
            counted: _,
            phase: _,
        } = self;
        held
    }

    // Goes on until nothing more joins. The place is that of a constraint with too little room.
    fn go_on(&mut self) -> Option<usize>
        requires within { StandWithin self.old.held.vars self.old.places }
        requires queue { IsInQueue self.old }
        ensures places { self.new.places ≡ self.old.places }
        ensures vars { self.new.held.vars ≡ self.old.held.vars }
        ensures advances { (given : List Lit) → Advances (standing self.old.places) given self.old.held.lits self.new.held.lits }
        ensures in_held { self.new.counted ≤ length self.new.held.lits }
        ensures counts { IsCounted self.new.held.vars self.new.places self.new.lists self.new.kept.items (oldest self.new.counted self.new.held.lits) }
        ensures listed { AreListed self.new.places self.new.kept.items self.new.tight.items }
        ensures even { length self.new.kept.items ≡ length self.new.places }
        ensures calm { IsNone result → (length self.new.held.lits ≤ self.new.counted) × AreCalm self.new.places self.new.kept.items self.new.held.lits }
        ensures short { IfSome result (HasTooLittle self.new.places self.new.held.lits) }
    {
        if let Some(place) = begin(
            &self.places,
            &self.kept,
            &self.tight,
            &mut self.held,
            self.phase,
        ) {
            return Some(place);
        }
        tell_rest(
            &self.places,
            &mut self.kept,
            &self.lists,
            &mut self.held,
            &mut self.counted,
        )
    }

    // Has all literals hold that are reached, or finds a constraint with too little room.
    pub(crate) fn propagate(&mut self) -> Outcome
        requires within { StandWithin self.old.held.vars self.old.places }
        requires queue { IsInQueue self.old }
        ensures places { self.new.places ≡ self.old.places }
        ensures vars { self.new.held.vars ≡ self.old.held.vars }
        ensures advances { (given : List Lit) → Advances (standing self.old.places) given self.old.held.lits self.new.held.lits }
        ensures queue { IsInQueue self.new }
        ensures ends { Ends self.new.places self.new.held.lits result }
    {
        match self.go_on() {
            Some(place) => {
                self.phase = Phase::Conflicting(place);
                Outcome::Conflict {
                    place: place as u64,
                }
            }
            None => {
                self.phase = Phase::Fixpoint;
                Outcome::Fixed
            }
        }
    }

    // Begins anew: no literal was told, and no constraint was looked at.
    pub(crate) fn rewind(&mut self)
        requires { IsInQueue self.old }
        ensures places { self.new.places ≡ self.old.places }
        ensures held { self.new.held ≡ self.old.held }
        ensures counted { self.new.counted ≡ 0 }
        ensures phase { self.new.phase ≡ Phase.Unpropagated }
        ensures store { IsUntold self.new }
    {
        uncount(
            &self.places,
            &mut self.kept,
            &self.lists,
            &self.held,
            self.counted,
        );
        self.counted = 0;
        self.phase = Phase::Unpropagated;
    }
}
