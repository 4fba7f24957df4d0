//! Refutations of CNF formulas in the LRAT format, checked line by line.
#![tactic(auto)]

mod checker;
mod denied;
mod fault;
mod judge;
mod laws;
mod line_laws;
mod marks;
mod quick;
mod read;
mod refute_fault;
mod refuting;
mod said;
mod store;
mod trail;
mod word;

pub use checker::LratChecker;
pub use denied::LratDenied;
pub use fault::LratFault;
pub use laws::{added_clauses_hold, empty_clauses_refute, refuted_have_no_model};
pub use line_laws::{lines_need_no_memory, lrat_faults_stand_first, reads_what_is_told};
pub use refute_fault::RefuteFault;
pub use refuting::refute;
