//! Literals by number, as derivations, models and command lines spell them.
ghost use Rattle.std.specs.Prelude.{◌≡◌};
ghost use Rattle.pb_base.specs.Numbers.{natural_of};
ghost use Rattle.pb_base.specs.LiteralWords.{indexed, variable_of, literal_of, limited_literal};

use crate::literal::{Lit, Var};
use crate::number::{Number, read_digits};

/// What a word spells, read as a literal.
#[derive(Clone, Copy)]
pub enum LitWord {
    /// A literal of a variable below 2 ^ 31.
    Within(Lit),
    /// A literal of a variable of 2 ^ 31 or more.
    TooGreat,
    /// No literal.
    NotALiteral,
}

fn read_index(positive: bool, digits: &[u8]) -> LitWord
    ensures { result ≡ limited_literal (indexed positive (natural_of digits.now)) }
{
    match read_digits(digits) {
        Number::NotANumber | Number::Value(0) => LitWord::NotALiteral,
        Number::Value(index) if index < 1 << 31 => LitWord::Within(Lit {
            var: Var::new(index as u32),
            positive,
        }),
        Number::Value(_) => LitWord::TooGreat,
        Number::TooWide => LitWord::TooGreat,
    }
}

/// Reads a word of `x` and digits, as the variable or as its negation.
pub fn read_variable(positive: bool, word: &[u8]) -> LitWord
    // The answer is the variable that `x` and digits spell, or its negation; `TooGreat` iff it is 2^31 or more, and `NotALiteral` iff the
    // word spells none.
    ensures { result ≡ limited_literal (variable_of positive word.now) }
{
    match word {
        [b'x', digits @ ..] => read_index(positive, digits),
        _ => LitWord::NotALiteral,
    }
}

/// Reads a word of `x` and digits, behind an optional `~`.
pub fn read_literal(word: &[u8]) -> LitWord
    // The answer is the literal that `x` and digits spell, after an optional `~`; `TooGreat` iff its variable is 2^31 or more, and
    // `NotALiteral` iff the word spells none.
    ensures { result ≡ limited_literal (literal_of word.now) }
{
    match word {
        [b'~', rest @ ..] => read_variable(false, rest),
        _ => read_variable(true, word),
    }
}
