//! What a model text says.
use pb_base::Bits;

/// The status that a solver reports of the clauses.
#[derive(Clone, Copy)]
pub enum Says {
    /// That they have a model.
    Satisfiable,
    /// Anything else.
    Other,
    /// Nothing.
    Missing,
}

/// The status that a solver reports, and a value for each variable, the first one for variable 1.
pub struct Model {
    pub says: Says,
    pub values: Bits,
}

// Written out: one call in the proof of a function that owns it.
impl Drop for Model {
    fn drop(self) {
        let Model { says: _, values: _ } = self;
    }
}
