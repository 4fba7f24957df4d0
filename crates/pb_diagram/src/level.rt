//! The nodes of a level.
ghost use Rattle.std.specs.Prelude.{◌≡◌};
ghost use Rattle.pb_diagram.specs.laws.Search.{nodes_at};

use crate::interval::Interval;
use std::marker::Model;

/// The nodes of a level, in order.
#[derive(Drop)]
pub struct Level {
    intervals: Vec<Interval>,
}

impl Model for Level {
    ghost use Rattle.std.specs.Prelude.{List};
    ghost use Rattle.pb_diagram.specs.declared.interval.Interval.{Interval};

    ghost Value = { List Interval };

    ghost view = { λ l. l.intervals.items };
}

impl Level {
    /// A level of these nodes.
    pub fn from_vec(intervals: Vec<Interval>) -> Self
        ensures { result ≡ intervals.items }
    {
        Level { intervals }
    }

    /// Its nodes, in order.
    pub fn nodes(&self) -> &[Interval]
        ensures { result.now ≡ self.now }
    {
        self.intervals.as_slice()
    }
}

/// The nodes of a level, of which there are none after the last.
pub fn nodes_after(levels: &[Level], place: usize) -> &[Interval]
    ensures { result.now ≡ nodes_at levels.now place }
{
    if place < levels.len() {
        levels[place].nodes()
    } else {
        &[]
    }
}
