//! The places of free names, taken one after another.
ghost use Rattle.std.specs.Prelude.{[], ◌≡◌, ◌∷◌, ◌++◌, ◌≤◌, OnOk, length};

use pb_base::{NoMemory, Seq};
use std::marker::Model;

/// Adds a place at the end, in four bytes.
pub fn push_place(places: &mut Seq<u32>, place: usize) -> Result<(), NoMemory>
    ensures { OnOk result (places.new ≡ places.old ++ place ∷ []) }
{
    if place > u32::MAX as usize {
        return Err(NoMemory);
    }
    places.push(place as u32)?;
    Ok(())
}

/// Places that are left.
#[derive(Drop)]
pub struct Places<'a> {
    rest: &'a [u32],
}

impl<'a> Model for Places<'a> {
    ghost use Rattle.std.specs.Prelude.{ℕ, List};

    ghost Value = { List ℕ };

    ghost view = { λ p. p.rest.now };
}

impl<'a> Places<'a> {
    /// All of these.
    pub fn of(rest: &'a [u32]) -> Self
        ensures { result ≡ rest.now }
    {
        Places { rest }
    }

    /// The next one.
    pub fn next(&mut self) -> u32
        requires { 1 ≤ length self.old }
        ensures { self.old ≡ result ∷ self.new }
    {
        let place = self.rest[0];
        self.rest = &self.rest[1..];
        place
    }
}
