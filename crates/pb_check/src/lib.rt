//! Whether a derivation shows that every solution of a problem extends to a model of a CNF.
#![tactic(auto)]

mod checking;
mod derivation;
mod fault;
mod kept;
mod laws;
mod session;
mod taking;
mod verdict;

pub use checking::{check, check_kept};
pub use laws::{
    accepted_cnf_extends, runs_are_accepted, walk_has_one_answer, written_runs_are_accepted,
};
pub use verdict::{CheckFault, Verdict};
