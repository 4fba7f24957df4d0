//! Places where nothing stands.
ghost use Rattle.std.specs.Prelude.{◌≡◌, None};
ghost use Rattle.pb_unit.specs.States.{at_place};

use crate::places::Places;

/// A place among those of an engine at which nothing stands, while terms enter the index there or leave it.
#[derive(Drop)]
pub(crate) struct Spot<'a> {
    /// Variables are at most this.
    pub(crate) vars: u32,
    pub(crate) places: &'a Places,
    pub(crate) place: usize,
    pub(crate) ghost empty: { at_place places.now place ≡ None },
}
