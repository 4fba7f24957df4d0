//! Generalized totalizers (Joshi, Martins and Manquinho 2015): a bounded sum with any coefficients, and tables of bounds.
#![tactic(auto)]

mod bound_table;
mod claims;
mod derivation;
mod emission;
mod handing;
mod laws;
mod leaf;
mod measure;
mod merge;
mod node_ids;
mod outputs;
mod ranked;
mod ranks;
mod seen;
mod sets;
mod table_clauses;
mod table_steps;
mod tables;
mod tree;
mod weighted;
mod whole;

pub use bound_table::BoundTable;
pub use laws::{
    rows_are_sound, rows_are_sums, rows_propagate, table_steps_are_few, table_steps_are_sayable,
    table_steps_are_short, tables_are_derived, tables_count, tables_extend, tables_name_only,
};
pub use weighted::Weighted;
