//! Saying words.
ghost use Rattle.pb_suite.specs.inner.Saying.{EndsSaying};

use crate::outcome::Outcome;
use pb_base::Failed;
use pb_desk::{Desk, say_all};

/// Prints all the bytes, which ends a run.
pub fn say<D: Desk>(desk: &mut D, bytes: &[u8]) -> Outcome
    ensures { EndsSaying bytes.now (D.state desk.old) (D.state desk.new) result }
{
    match say_all(desk, bytes) {
        Ok(()) => Outcome::Done,
        Err(Failed) => Outcome::WriteFault,
    }
}
