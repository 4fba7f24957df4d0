// Numbers that are written in digits alone.
//
// The parsers of clap would accept a sign. So clap gives a budget as the word that it is, and it is read here as digits alone, like
// every other number of the suite.
ghost use Rattle.std.specs.Prelude.{◌≡◌};
ghost use Rattle.pb_words.specs.Digits.{number_within};

use pb_base::{Number, read_digits};

/// Returns the number that a word of digits spells, if it is from `least` to `most`.
pub fn number_within(word: &[u8], least: u64, most: u64) -> Option<u64>
    ensures { result ≡ number_within least most word.now }
{
    match read_digits(word) {
        Number::Value(n) if i128::from(least) <= n && n <= i128::from(most) => Some(n as u64),
        _ => None,
    }
}

/// Returns the number that a word of digits spells, if it is at most `most`.
pub fn short_within(word: &[u8], most: u32) -> Option<u32>
    ensures { result ≡ number_within 0 most word.now }
{
    match read_digits(word) {
        Number::Value(n) if 0 <= n && n <= i128::from(most) => Some(n as u32),
        _ => None,
    }
}
