//! Some nodes of a level that are known, which stand next to each other.
ghost use Rattle.std.specs.Prelude.{◌≡◌, ◌≤◌, ◌<◌, ◌⊎◌, [], ◌∷◌, length, Contains, OnOk, OnErr, IfOk};
ghost use Rattle.pb_diagram.specs.declared.interval.Interval.{Interval};
ghost use Rattle.pb_diagram.specs.inner.Known.{AreKnown, AreParts, IsPlaceOf, begins_by};
ghost use Rattle.pb_diagram.specs.laws.Search.{IsFound, IsGrown};

use crate::interval::Interval;
use std::alloc::{AllocError, Global};
use std::marker::Model;

/// Intervals none of which begins within another. They stand in a list from the last to the first: a search comes to the residues
/// of a level from the greatest down, more or less, so a new interval has few behind it that have to be moved.
#[derive(Drop)]
pub struct Run {
    falling: Vec<Interval>,
}

impl Model for Run {
    ghost use Rattle.std.specs.Prelude.{List, reverse};
    ghost use Rattle.pb_diagram.specs.declared.interval.Interval.{Interval};
    ghost use Rattle.pb_diagram.specs.inner.Known.{AreKnown};

    ghost Value = { List Interval };

    ghost view = { λ k. reverse k.falling.items };

    ghost invariant = { λ k. AreKnown k.falling.items };
}

/// The place of the first of the falling intervals that does not begin above a residue.
fn place_of(falling: &[Interval], residue: u128) -> usize
    requires { AreKnown falling.now }
    ensures { IsPlaceOf falling.now residue result }
{
    falling.partition_point(|interval| residue < interval.low)
}

impl Run {
    /// An interval alone.
    pub fn of(alloc: Global, interval: Interval) -> Result<Self, AllocError>
        requires { interval.low < interval.top }
        ensures { IfOk result (λ run. run ≡ interval ∷ []) }
    {
        let mut falling = Vec::new(alloc);
        falling.push(interval)?;
        Ok(Run { falling })
    }

    /// How many they are.
    pub fn len(&self) -> usize
        ensures { result ≡ length self.now }
    {
        self.falling.len()
    }

    /// Whether the first of them does not begin above a residue.
    pub fn begins_by(&self, residue: u128) -> bool
        ensures { result ≡ begins_by self.now residue }
    {
        let count = self.falling.len();
        0 < count && self.falling[count - 1].low <= residue
    }

    /// The interval in which a residue lies.
    pub fn find(&self, residue: u128) -> Option<Interval>
        ensures { IsFound self.now residue result }
    {
        let falling = self.falling.as_slice();
        let place = place_of(falling, residue);
        if place < falling.len() {
            let interval = falling[place];
            if residue < interval.top {
                return Some(interval);
            }
        }
        None
    }

    /// Joins an interval to the others.
    pub fn insert(&mut self, interval: Interval) -> Result<(), AllocError>
        requires rises { interval.low < interval.top }
        requires elsewhere { (h : Interval) → Contains self.old h → (h.top ≤ interval.low) ⊎ (interval.top ≤ h.low) }
        ensures grown { OnOk result (IsGrown self.old interval self.new) }
        ensures kept { OnErr result (self.new ≡ self.old) }
    {
        let place = place_of(self.falling.as_slice(), interval.low);
        self.falling.insert(place, interval)?;
        Ok(())
    }

    /// Gives up all but the last of them, so many as told.
    pub fn split_off(&mut self, count: usize) -> Result<Self, AllocError>
        requires some { 0 < count }
        requires others { count < length self.old }
        ensures parts { IfOk result (λ lower. AreParts self.old lower self.new) }
        ensures kept { OnErr result (self.new ≡ self.old) }
    {
        let falling = self.falling.split_off(count)?;
        Ok(Run { falling })
    }

    /// All of them, in order.
    pub fn into_intervals(self) -> Vec<Interval>
        ensures { result.items ≡ self }
    {
        let mut intervals = self.falling;
        intervals.reverse();
        intervals
    }
}
