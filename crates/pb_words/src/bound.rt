// A bound on the objective, in words.
ghost use Rattle.std.specs.Prelude.{◌≡◌, ◌≤ℤ◌, IfSome, option_map, pos};
ghost use Rattle.clap.specs.Words.{found_of, rows_of};
ghost use Rattle.pb_words.specs.BoundWords.{bound_in, magnitude_of};

use crate::argument::{Argument, word_of};
use clap::ArgMatches;
use pb_base::{Number, WEIGHT_BITS, read_digits};

// The greatest absolute value of a bound.
const MAX_BOUND: i128 = (1 << WEIGHT_BITS) - 1;

/// The options by which a command takes a bound on the objective.
pub const BOUND: [Argument<'static>; 2] = [
    Argument::Valued("at-most"),
    Argument::Valued("at-most-minus"),
];

// Returns the number that a word of digits spells, if it is below 2^100.
fn magnitude_of(word: &str) -> Option<i128>
    ensures value { result ≡ option_map pos (magnitude_of word.now) }
    ensures low { IfSome result (λ n. pos 0 ≤ℤ n) }
{
    match read_digits(word.as_bytes()) {
        Number::Value(n) if 0 <= n && n <= MAX_BOUND => Some(n),
        _ => None,
    }
}

/// Returns the bound that a command was given, if any; the outer `None` says that it was given both kinds, or no number below 2^100.
pub fn bound_in(given: &ArgMatches<'_>) -> Option<Option<i128>>
    ensures { result ≡ bound_in (rows_of (found_of given.now)) }
{
    match (word_of(given, "at-most"), word_of(given, "at-most-minus")) {
        (None, None) => Some(None),
        (Some(word), None) => magnitude_of(word).map(Some),
        (None, Some(word)) => magnitude_of(word).map(|n| Some(-n)),
        (Some(_), Some(_)) => None,
    }
}
