//! Derivations: their steps, which steps are allowed, and their lines.
#![tactic(auto)]

mod constraint;
mod denied;
mod fault;
mod front_op;
mod laws;
mod line_laws;
mod listed;
mod op;
mod past;
mod pol;
mod quick;
mod read;
mod short;
mod step;
mod word;
mod write;
mod write_item;
mod write_word;

pub use denied::Denied;
pub use fault::StepFault;
pub use laws::{accepted_extends, allowed_or_denied};
pub use line_laws::{
    faults_say_nothing, faults_stand_first, lines_are_bounded, lines_differ, reads_what_is_said,
    written_line_reads,
};
pub use listed::ids_at;
pub use op::{PolOp, Set};
pub use read::read_step;
pub use short::{mark_at, number_at};
pub use step::{PolOps, Sets, Step};
pub use word::{id_in, number_between, token_fault};
pub use write::write_step;
