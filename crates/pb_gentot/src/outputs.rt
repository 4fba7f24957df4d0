//! The literals that a part gives to what stands over it.
ghost use Rattle.std.specs.Prelude.{◌≡◌, Contains};
ghost use Rattle.pb_tree.specs.Places.{place_of};
ghost use Rattle.pb_gentot.specs.Rising.{Rising};

use pb_base::Lit;
use pb_family::fresh_at;

/// A literal for each value: a leaf's own, or fresh variables in a row.
#[derive(Clone, Copy)]
pub enum Outputs {
    Single(Lit),
    Fresh(u32),
}

/// Where a value stands.
pub fn place_in(values: &[u128], value: u128) -> usize
    requires rising { Rising values.now }
    requires has { Contains values.now value }
    ensures { result ≡ place_of value values.now }
{
    match values.binary_search(&value) {
        Ok(place) => place,
        Err(place) => place,
    }
}

impl Outputs {
    ghost use Rattle.std.specs.Prelude.{◌≡◌, ◌+◌};
    ghost use Rattle.pb_gentot.specs.inner.Outputs.{output_at, HasRoom};

    /// The literal of the value at a place.
    pub fn at(&self, place: usize) -> Lit
        requires { HasRoom self.now (place + 1) }
        ensures { result ≡ output_at self.now place }
    {
        match self {
            Outputs::Single(lit) => *lit,
            Outputs::Fresh(first) => fresh_at(*first, place),
        }
    }
}
