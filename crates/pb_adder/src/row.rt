//! The clause of one level of a comparator.
ghost use Rattle.std.specs.Prelude.{◌≤◌};

use pb_base::Lit;

/// The most levels that a sum has.
pub const LEVELS: usize = 128;

/// The literals of a clause, in room for one of each level.
#[derive(Drop)]
pub struct Row {
    pub lits: [Lit; LEVELS],
    pub len: usize,
    ghost within: { len ≤ 128 },
}

impl Row {
    ghost use Rattle.std.specs.Prelude.{◌≡◌};
    ghost use Rattle.pb_adder.specs.inner.Rows.{row_lits};

    /// Its literals.
    pub fn as_slice(&self) -> &[Lit]
        ensures { result.now ≡ row_lits self.now }
    {
        &self.lits[..self.len]
    }
}
