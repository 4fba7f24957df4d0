//! At which place of a node's values each of them stands.

use crate::outputs::place_in;
use std::alloc::{AllocError, Global};

/// The place of each value below the table's size. Larger values are looked for.
#[derive(Drop)]
pub struct Ranks {
    pub places: Vec<u32>,
}

impl Ranks {
    ghost use Rattle.std.specs.Prelude.{◌≡◌, ◌<◌, ◌^◌, length, Contains, IfOk};
    ghost use Rattle.pb_tree.specs.Places.{place_of};
    ghost use Rattle.pb_gentot.specs.Rising.{Rising};
    ghost use Rattle.pb_gentot.specs.inner.Ranked.{AreRanks};

    /// The places of some values, in a table of a size.
    pub fn of(alloc: Global, values: &[u128], size: usize) -> Result<Ranks, AllocError>
        requires rising { Rising values.now }
        requires few { length values.now < 2 ^ 32 }
        ensures { IfOk result (λ ranks. AreRanks ranks values.now) }
    {
        let mut places: Vec<u32> = Vec::new(alloc);
        places.resize(size, 0)?;
        for (place, value) in values.iter().enumerate() {
            if *value < places.len() as u128 {
                places[*value as usize] = place as u32;
            }
        }
        Ok(Ranks { places })
    }

    /// Where a value stands.
    pub fn place(&self, values: &[u128], value: u128) -> usize
        requires ranks { AreRanks self.now values.now }
        requires rising { Rising values.now }
        requires has { Contains values.now value }
        ensures { result ≡ place_of value values.now }
    {
        if value < self.places.len() as u128 {
            self.places[value as usize] as usize
        } else {
            place_in(values, value)
        }
    }
}
