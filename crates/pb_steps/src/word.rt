//! Single words of a line.
ghost use Rattle.std.specs.Prelude.{◌≡◌, ◌<◌, ◌≤◌, ◌^◌, ℕ, Option, pos, IfOk};
ghost use Rattle.std.specs.Option.{option_map};
ghost use Rattle.pb_base.specs.declared.literal.Lit.{Lit};
ghost use Rattle.pb_base.specs.Numbers.{limited, natural_of};
ghost use Rattle.pb_base.specs.LiteralWords.{limited_literal};
ghost use Rattle.pb_base.specs.Pieces.{chunk};
ghost use Rattle.pb_steps.specs.LineWords.{number_between, literal_by, id_in, integer_in, literal_in, variable_in, bit_in};

use crate::fault::StepFault;
use pb_base::{
    Expected, LimitKind, Lit, LitWord, Number, Var, Word, read_digits, read_literal, read_number,
    read_variable,
};

/// Another word could stand there.
pub fn token_fault(column: u64, expected: Expected) -> StepFault
    ensures { result ≡ StepFault.Token column expected }
{
    StepFault::Token { column, expected }
}

// The limit of numbers is passed there.
fn too_wide(column: u64) -> StepFault
    ensures { result ≡ StepFault.Limit column LimitKind.Number }
{
    StepFault::Limit {
        column,
        which: LimitKind::Number,
    }
}

/// The number that a word of digits is, from `least` on and below a bound.
pub fn number_between(
    number: Number,
    column: u64,
    least: u128,
    bound: u128,
    expected: Expected,
) -> Result<u128, StepFault>
    requires low { least ≤ bound }
    requires high { bound ≤ 2 ^ 126 }
    ensures value { (o : Option ℕ) → number ≡ limited (option_map pos o) → result ≡ number_between least bound expected column o }
    ensures below { IfOk result (λ n. n < bound) }
    ensures from { IfOk result (λ n. least ≤ n) }
{
    let value = match number {
        Number::Value(n) => n.unsigned_abs(),
        Number::TooWide => return Err(too_wide(column)),
        Number::NotANumber => return Err(token_fault(column, expected)),
    };
    if value < least {
        return Err(token_fault(column, expected));
    }
    if value < bound {
        return Ok(value);
    }
    Err(too_wide(column))
}

/// The id that a word is.
pub fn id_in(word: &Word<'_>, expected: Expected) -> Result<u64, StepFault>
    ensures { result ≡ id_in expected (chunk word.now) }
{
    let id = number_between(read_digits(word.text), word.column, 1, 1 << 63, expected)?;
    Ok(id as u64)
}

/// How many constraints a word says.
pub fn count_in(word: &Word<'_>) -> Result<u64, StepFault>
    ensures { result ≡ number_between 0 (2 ^ 63) Expected.LoadedCount (chunk word.now).column (natural_of (chunk word.now).text) }
{
    let count = number_between(
        read_digits(word.text),
        word.column,
        0,
        1 << 63,
        Expected::LoadedCount,
    )?;
    Ok(count as u64)
}

/// The integer that a word is.
pub fn integer_in(word: &Word<'_>, expected: Expected) -> Result<i128, StepFault>
    ensures { result ≡ integer_in expected (chunk word.now) }
{
    match read_number(word.text) {
        Number::Value(n) => Ok(n),
        Number::TooWide => Err(too_wide(word.column)),
        Number::NotANumber => Err(token_fault(word.column, expected)),
    }
}

// A literal, where its variable is not too great.
fn literal_by(name: LitWord, column: u64, expected: Expected) -> Result<Lit, StepFault>
    ensures { (o : Option Lit) → name ≡ limited_literal o → result ≡ literal_by expected column o }
{
    match name {
        LitWord::Within(lit) => Ok(lit),
        LitWord::TooGreat => Err(StepFault::Limit {
            column,
            which: LimitKind::Variables,
        }),
        LitWord::NotALiteral => Err(token_fault(column, expected)),
    }
}

/// The literal that a word is.
pub fn literal_in(word: &Word<'_>, expected: Expected) -> Result<Lit, StepFault>
    ensures { result ≡ literal_in expected (chunk word.now) }
{
    literal_by(read_literal(word.text), word.column, expected)
}

/// The variable that a word is, which is greater than another one.
pub fn variable_in(word: &Word<'_>, above: u32) -> Result<Var, StepFault>
    ensures { result ≡ variable_in above (chunk word.now) }
{
    let name = read_variable(true, word.text);
    let lit = literal_by(name, word.column, Expected::SetVar)?;
    if lit.index() <= above {
        return Err(token_fault(word.column, Expected::SetVar));
    }
    Ok(lit.var)
}

/// The value that a word is.
pub fn bit_in(word: &Word<'_>) -> Result<bool, StepFault>
    ensures { result ≡ bit_in (chunk word.now) }
{
    match word.text {
        b"0" => Ok(false),
        b"1" => Ok(true),
        _ => Err(token_fault(word.column, Expected::Bit)),
    }
}
