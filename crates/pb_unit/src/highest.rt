//! The greatest variable of constraints and of literals: a look at them where they stand, for which no terms are made.
ghost use Rattle.std.specs.Prelude.{◌≤◌, ◌<◌, ◌^◌, All};
ghost use Rattle.pb_unit.specs.Reaching.{IsUpTo, OfLit};
ghost use Rattle.pb_unit.specs.inner.Slots.{IsAloneUpTo};

use crate::places::Slot;
use pb_base::{Lit, Term};

// The greatest variable of terms, or a number that is no less.
fn greatest_in(terms: &[Term], least: u32) -> u32
    requires { least < 2 ^ 31 }
    ensures within { All (λ t. IsUpTo result t.lit.var) terms.now }
    ensures no_less { least ≤ result }
    ensures few { result < 2 ^ 31 }
{
    let mut most = least;
    for term in terms {
        most = most.max(term.lit.index());
    }
    most
}

// The same of literals.
pub(crate) fn greatest_from(lits: &[Lit], least: u32) -> u32
    requires { least < 2 ^ 31 }
    ensures within { All (OfLit (IsUpTo result)) lits.now }
    ensures no_less { least ≤ result }
    ensures few { result < 2 ^ 31 }
{
    let mut most = least;
    for lit in lits {
        most = most.max(lit.index());
    }
    most
}

// The same of a constraint in memory of its own, if that is in the slot.
fn greatest_alone(slot: &Slot, least: u32) -> u32
    requires { least < 2 ^ 31 }
    ensures within { IsAloneUpTo result slot.now }
    ensures no_less { least ≤ result }
    ensures few { result < 2 ^ 31 }
{
    match slot {
        Slot::General(alone) => greatest_in(alone.terms(), least),
        _ => least,
    }
}

// The same of all constraints in memory of their own.
pub(crate) fn greatest_of_slots(slots: &[Slot], least: u32) -> u32
    requires { least < 2 ^ 31 }
    ensures within { All (IsAloneUpTo result) slots.now }
    ensures no_less { least ≤ result }
    ensures few { result < 2 ^ 31 }
{
    let mut most = least;
    for slot in slots {
        most = greatest_alone(slot, most);
    }
    most
}

// The greatest variable of literals, or 0.
pub(crate) fn greatest(lits: &[Lit]) -> u32
    ensures within { All (OfLit (IsUpTo result)) lits.now }
    ensures few { result < 2 ^ 31 }
{
    greatest_from(lits, 0)
}
