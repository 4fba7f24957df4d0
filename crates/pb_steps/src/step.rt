//! What a line of a derivation says.
use crate::op::{PolOp, Set};
use pb_base::{Ids, Seq, Terms};

/// Operations, in the order in which they are done.
pub type PolOps = Seq<PolOp>;

/// The variables that a substitution sets, ascending, with their values.
pub type Sets = Seq<Set>;

/// What a line of a derivation says.
pub enum Step {
    /// An empty line or a comment.
    Blank,
    /// The first line.
    Head,
    /// How many constraints are loaded.
    Loaded {
        count: u64,
    },
    /// The constraint that operations leave on a stack.
    Pol(PolOps),
    /// A constraint by reverse unit propagation over those with the ids, or over all where no id is named (Goldberg and Novikov 2003).
    Rup {
        terms: Terms,
        right: i128,
        ids: Ids,
    },
    /// A constraint that is redundant by a substitution (Gocht and Nordström 2021).
    Red {
        terms: Terms,
        right: i128,
        sets: Sets,
    },
    /// The constraints with the ids are no longer there.
    Del(Ids),
    /// The constraint with an id gives the next clause.
    Out {
        id: u64,
    },
    /// The last line.
    End,
}

// Written out, so that it is one call in the proof of each function that owns a step.
impl Drop for Step {
    fn drop(self) {
        match self {
            Step::Blank
            | Step::Head
            | Step::Loaded { count: _ }
            | Step::Out { id: _ }
            | Step::End => {}
            Step::Pol(_) => {}
            Step::Rup {
                terms: _,
                right: _,
                ids: _,
            } => {}
            Step::Red {
                terms: _,
                right: _,
                sets: _,
            } => {}
            Step::Del(_) => {}
        }
    }
}
