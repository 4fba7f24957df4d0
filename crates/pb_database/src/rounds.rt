//! Propagation over few listed constraints, in rounds.
//!
//! At most eight listed constraints are read and visited in turn, with no engine: each makes the literals true that it needs. A
//! constraint with too little room is a conflict; a round that adds no literal is the end without one. If eight rounds bring neither,
//! the engine of `idle` decides.
ghost use Rattle.std.specs.Prelude.{◌≡◌, ◌∷◌, IfSome};
ghost use Rattle.pb_norm.specs.Constraints.{AreVarsWithin, HasVarsWithin};
ghost use Rattle.pb_database.specs.inner.Slots.{listed_slots};
ghost use Rattle.pb_database.specs.inner.Mirrors.{AreWithin};
ghost use Rattle.pb_database.specs.Refutations.{TellsConflict};
ghost use Rattle.pb_database.specs.inner.Showing.{Shows};

use crate::slots::{self, Slot};
use pb_norm::Linear;
use pb_unit::Rounds;
use std::alloc::Global;

// So many constraints are shown at most, so many times: then an engine, with its index, is worth its while.
const FEW: usize = 8;

const MOST_ROUNDS: usize = 8;

// Visits constraints, up to the first that is conflicting. True if none is.
fn show_others(rounds: &mut Rounds, constraints: &[Linear]) -> bool
    requires { AreVarsWithin rounds.old.vars constraints.now }
    ensures vars { rounds.new.vars ≡ rounds.old.vars }
    ensures shows { Shows result constraints.now rounds.old.lits rounds.new.lits }
{
    for constraint in constraints {
        if !rounds.show(constraint) {
            return false;
        }
    }
    true
}

// Visits a constraint and then the others, up to the first that is conflicting. True if none is.
fn show_all(rounds: &mut Rounds, more: &Linear, constraints: &[Linear]) -> bool
    requires more { HasVarsWithin rounds.old.vars more.now.terms }
    requires within { AreVarsWithin rounds.old.vars constraints.now }
    ensures vars { rounds.new.vars ≡ rounds.old.vars }
    ensures shows { Shows result (more.now ∷ constraints.now) rounds.old.lits rounds.new.lits }
{
    if !rounds.show(more) {
        return false;
    }
    show_others(rounds, constraints)
}

// Returns whether propagation over a constraint and others reaches a conflict, and None if that is not seen in few rounds.
fn seen_in_rounds(rounds: &mut Rounds, more: &Linear, constraints: &[Linear]) -> Option<bool>
    requires more { HasVarsWithin rounds.old.vars more.now.terms }
    requires within { AreVarsWithin rounds.old.vars constraints.now }
    ensures vars { rounds.new.vars ≡ rounds.old.vars }
    ensures answer { IfSome result (TellsConflict (more.now ∷ constraints.now)) }
{
    rounds.clear();
    for _round in 0..MOST_ROUNDS {
        let before = rounds.len();
        if !show_all(rounds, more, constraints) {
            return Some(true);
        }
        if rounds.len() == before {
            return Some(false);
        }
    }
    None
}

/// Returns whether propagation over a constraint and those with the ids reaches a conflict, and None if the ids are many or it is not
/// seen in few rounds.
pub(crate) fn is_refuted_by_few(
    alloc: Global,
    rounds: &mut Rounds,
    slots: &[Slot],
    more: &Linear,
    ids: &[u64],
) -> Option<bool>
    requires more { HasVarsWithin rounds.old.vars more.now.terms }
    requires within { AreWithin rounds.old.vars slots.now }
    ensures vars { rounds.new.vars ≡ rounds.old.vars }
    ensures answer { IfSome result (TellsConflict (more.now ∷ listed_slots slots.now ids.now)) }
{
    if ids.len() > FEW {
        return None;
    }
    let Ok(listed) = slots::listed(alloc, slots, ids) else {
        return None;
    };
    seen_in_rounds(rounds, more, &listed)
}
