//! Encodes problems as clauses.
#![tactic(auto)]

mod bounds;
mod derivation;
mod derivation_file;
mod derived;
mod encodable;
mod encoding;
mod fault;
mod file;
mod group_plan;
mod groups;
mod hints;
mod measuring;
mod models;
mod objective;
mod plain;
mod position;
mod sizes;
mod streaming;
mod summary;
mod table;
mod tally;
mod weighing;
mod whole;

pub use bounds::{bound_rows, words_of};
pub use derivation_file::count_loaded;
pub use derived::{cnf_tells_the_clauses, steps_derive_the_clauses};
pub use encoding::{Names, encode};
pub use fault::{EncodeFault, MeasureFault};
pub use measuring::measure;
pub use models::{
    clauses_force_what_constraints_do, clauses_have_the_solutions, equalities_stand_apart,
    groups_have_the_constraints, rows_bound_the_objective,
};
pub use objective::{objective_form, offset_by};
pub use sizes::texts_have_few_bytes;
pub use summary::{Summary, Treatments, summary_text};
pub use weighing::{
    costs_add_up, hard_clauses_have_the_costs, weighted, weighted_text_says_the_clauses,
};
pub use whole::{hand_clauses, stream_clauses, stream_steps};
