//! Totalizers (Bailleux and Boufkhad 2003): at most so many of some literals are true, or exactly so many.
#![tactic(auto)]

mod along;
mod block_claims;
mod block_lines;
mod block_parts;
mod claims;
mod derivation;
mod emission;
mod exact;
mod exact_derivation;
mod fresh_row;
mod handing;
mod joint;
mod joint_clauses;
mod joint_meanings;
mod joint_sum;
mod large_clauses;
mod large_node;
mod limit_claims;
mod limits;
mod node;
mod node_ids;
mod numbers;
mod outputs;
mod phase;
mod polarity;
mod root;
mod row_claims;
mod row_lines;
mod side;
mod size;
mod totalizer;
mod whole;
mod windows;

pub use exact::Exact;
pub use totalizer::Totalizer;
