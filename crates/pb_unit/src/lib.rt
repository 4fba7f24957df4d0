//! Lists of constraints, and unit propagation over them.
#![tactic(auto)]

mod apart;
mod constraints;
mod engine;
mod filling;
mod garbage;
mod highest;
mod index;
mod kept;
mod laws;
mod newest;
mod numbering;
mod passes;
mod places;
mod queue;
mod reaching;
mod rounds;
mod slack;
mod spot;
mod store;
mod trail;
mod visit;

pub use apart::is_conflicting;
pub use constraints::Constraints;
pub use engine::{Engine, Outcome};
pub use laws::{a_conflict_stays, a_refused_literal_conflicts, answers_over_clauses};
pub use newest::newest_that;
pub use reaching::{modest_greatest, reached_literals};
pub use rounds::Rounds;
