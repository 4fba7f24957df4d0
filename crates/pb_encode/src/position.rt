//! The position of a group's derivation.
ghost use Rattle.std.specs.Prelude.{◌≤◌};

/// The first fresh variable of a group's derivation, and the id of its first constraint.
#[derive(Clone, Copy)]
pub struct Position {
    pub first: u32,
    pub id: u64,
    ghost low: { 1 ≤ first },
    ghost given: { 1 ≤ id },
}
