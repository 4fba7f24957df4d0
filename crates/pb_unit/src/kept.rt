//! The room that is kept of each constraint.
ghost use Rattle.std.specs.Prelude.{◌≡◌, ◌≤◌, ◌<◌, ◌+◌, ◌^◌, ◌∷◌, [], nat_lt, length, map, Some};
ghost use Rattle.pb_norm.specs.Constraints.{weight};
ghost use Rattle.pb_unit.specs.Steps.{IsAlert};
ghost use Rattle.pb_unit.specs.inner.Filling.{IsKeptOf};
ghost use Rattle.pb_unit.specs.inner.Tellable.{AreRaisable};
ghost use Rattle.pb_unit.specs.Index.{unit_at, room_at, alert_at, AreLowered};

use crate::index::Occurrence;
use pb_norm::Linear;

/// What the terms of a constraint can still add, and with how much of that it needs no literal, whatever holds.
#[derive(Clone, Copy)]
pub(crate) struct Counters {
    pub(crate) room: u128,
    pub(crate) alert: u128,
}

// Takes a coefficient from the room of its constraint. Whether the constraint may need something now.
pub(crate) fn lower(kept: &mut [Counters], occurrence: &Occurrence) -> bool
    requires known { occurrence.now.place < length kept.old }
    requires enough { occurrence.now.coef ≤ room_at kept.old occurrence.now.place }
    ensures lowered { AreLowered (occurrence.now ∷ []) kept.old kept.new }
    ensures answer { result ≡ nat_lt (room_at kept.new occurrence.now.place) (alert_at kept.new occurrence.now.place) }
{
    let at = &mut kept[occurrence.place];
    at.room -= occurrence.coef;
    at.room < at.alert
}

// Gives a coefficient back.
pub(crate) fn raise(kept: &mut [Counters], occurrence: &Occurrence)
    requires known { occurrence.now.place < length kept.old }
    requires fits { room_at kept.old occurrence.now.place + occurrence.now.coef < 2 ^ 128 }
    ensures { AreLowered (occurrence.now ∷ []) kept.new kept.old }
{
    kept[occurrence.place].room += occurrence.coef;
}

// Gives the coefficients back to the rooms.
pub(crate) fn raise_all(kept: &mut [Counters], occurrences: &[Occurrence])
    requires { AreRaisable kept.old occurrences.now }
    ensures { AreLowered occurrences.now kept.new kept.old }
{
    for occurrence in occurrences {
        raise(kept, occurrence);
    }
}

// Gives a coefficient of 1 back to the rooms of these places.
pub(crate) fn raise_units(kept: &mut [Counters], places: &[u32])
    requires { AreRaisable kept.old (map unit_at places.now) }
    ensures { AreLowered (map unit_at places.now) kept.new kept.old }
{
    for place in places {
        let occurrence = Occurrence {
            place: *place as usize,
            coef: 1,
        };
        raise(kept, &occurrence);
    }
}

// The room at a place, 0 past the end.
pub(crate) fn room_of(kept: &[Counters], place: usize) -> u128
    ensures { result ≡ room_at kept.now place }
{
    match kept.get(place) {
        Some(at) => at.room,
        None => 0,
    }
}

/// Nothing is kept where nothing stands.
pub(crate) const NOTHING: Counters = Counters { room: 0, alert: 0 };

// With this room a constraint needs nothing, whatever holds.
pub(crate) fn alert_of(constraint: &Linear) -> u128
    ensures { IsAlert result constraint.now }
{
    let mut greatest = 0;
    for term in constraint.terms() {
        let weight = term.weight();
        if weight > greatest {
            greatest = weight;
        }
    }
    constraint.degree() + greatest
}

// What is kept of a constraint, while nothing is told.
pub(crate) fn kept_of(constraint: &Linear) -> Counters
    ensures { IsKeptOf (Some constraint.now) result }
{
    Counters {
        room: constraint.weight(),
        alert: alert_of(constraint),
    }
}
