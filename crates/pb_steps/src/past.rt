//! Certain words, and the end.
ghost use Rattle.std.specs.Prelude.{◌≡◌, Ok, Err, IfOk, IfErr};
ghost use Rattle.pb_steps.specs.LineSteps.{ends_here, past};

use crate::fault::StepFault;
use crate::step::Step;
use crate::word::token_fault;
use pb_base::{Expected, Words};

/// Takes a certain word.
pub fn take(
    words: &mut Words<'_>,
    end: u64,
    key: &[u8],
    expected: Expected,
) -> Result<(), StepFault>
    ensures ok { IfOk result (λ _. past end key.now expected words.old ≡ Ok words.new) }
    ensures err { IfErr result (λ fault. past end key.now expected words.old ≡ Err fault) }
{
    let Some(word) = words.next() else {
        return Err(token_fault(end, expected));
    };
    if word.text == key {
        return Ok(());
    }
    Err(token_fault(word.column, expected))
}

/// Nothing follows the step.
pub fn ends_here(words: &mut Words<'_>, step: Step) -> Result<Step, StepFault>
    ensures { result ≡ ends_here Expected.LineEnd step words.old }
{
    match words.next() {
        None => Ok(step),
        Some(word) => Err(token_fault(word.column, Expected::LineEnd)),
    }
}
