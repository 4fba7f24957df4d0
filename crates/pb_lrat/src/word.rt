//! Single words of a line.
ghost use Rattle.std.specs.Prelude.{◌≡◌, ◌<◌, ◌^◌};
ghost use Rattle.pb_base.specs.Pieces.{chunk};
ghost use Rattle.pb_lrat.specs.LratWords.{hint_in, literal_in};

use pb_base::{Expected, Lit, Word, read_digits, read_number};
use pb_dimacs::{Meaning, meant};
use pb_steps::{StepFault, number_between, token_fault};

/// Reads a word as the id of a clause; `None` if it is 0.
pub(crate) fn hint_in(word: &Word<'_>) -> Result<Option<u64>, StepFault>
    ensures { result ≡ hint_in (chunk word.now) }
{
    let number = read_digits(word.text);
    let id = number_between(number, word.column, 0, 1 << 63, Expected::LratHint)?;
    if id == 0 {
        return Ok(None);
    }
    Ok(Some(id as u64))
}

/// Reads a word as a literal of the first `vars` variables; `None` if it is 0.
pub(crate) fn literal_in(word: &Word<'_>, vars: u32) -> Result<Option<Lit>, StepFault>
    requires { vars < 2 ^ 31 }
    ensures { result ≡ literal_in vars (chunk word.now) }
{
    match meant(read_number(word.text), vars) {
        Meaning::End => Ok(None),
        Meaning::Literal(lit) => Ok(Some(lit)),
        Meaning::Nothing => Err(token_fault(word.column, Expected::LratLiteral)),
    }
}
