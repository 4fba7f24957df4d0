// The options of an encoding, in words.
ghost use Rattle.std.specs.Prelude.{◌≡◌, codes, map};
ghost use Rattle.clap.specs.Words.{found_of, rows_of};
ghost use Rattle.pb_base.specs.Defaults.{default_options};
ghost use Rattle.pb_words.specs.Digits.{number_within};
ghost use Rattle.pb_words.specs.OptionWords.{find_word, option_in, options_in};

use crate::argument::{Argument, word_of};
use crate::digits::number_within;
use clap::ArgMatches;
use pb_base::{Amo, Card, EqualMode, General, MAX_BUDGET, Options};

/// The options of an encoding.
pub const OPTIONS: [Argument<'static>; 5] = [
    Argument::Valued("amo"),
    Argument::Valued("card"),
    Argument::Valued("general"),
    Argument::Valued("equal"),
    Argument::Valued("budget"),
];

const AMO: [(&str, Amo); 4] = [
    ("auto", Amo::Auto),
    ("pairwise", Amo::Pairwise),
    ("ladder", Amo::Ladder),
    ("product", Amo::Product),
];

const CARD: [(&str, Card); 3] = [
    ("auto", Card::Auto),
    ("counter", Card::Counter),
    ("totalizer", Card::Totalizer),
];

const GENERAL: [(&str, General); 3] = [
    ("diagram", General::Diagram),
    ("tree", General::Tree),
    ("adder", General::Adder),
];

const EQUAL: [(&str, EqualMode); 2] = [("split", EqualMode::Split), ("joint", EqualMode::Joint)];

// Returns the value of a word in a table of words.
fn find_word<T: Copy>(values: &[(&str, T)], word: &str) -> Option<T>
    ensures { result ≡ find_word (map (λ value. (value.0.now, value.1)) values.now) word.now }
{
    for value in values {
        if word == value.0 {
            return Some(value.1);
        }
    }
    None
}

// Returns the value of the option with this id, or the default if it is not given; `None` if its word has no value.
fn option_in<T: Copy>(
    given: &ArgMatches<'_>,
    id: &str,
    values: &[(&str, T)],
    default: T,
) -> Option<T>
    ensures { result ≡ option_in id.now (find_word (map (λ value. (value.0.now, value.1)) values.now)) default (rows_of (found_of given.now)) }
{
    match word_of(given, id) {
        Some(word) => find_word(values, word),
        None => Some(default),
    }
}

// Returns the budget, or the default if it is not given; `None` unless it is from 1 to 10,000,000.
fn budget_in(given: &ArgMatches<'_>) -> Option<u64>
    ensures { result ≡ option_in (codes "budget") (number_within 1 10000000) default_options.budget (rows_of (found_of given.now)) }
{
    match word_of(given, "budget") {
        Some(word) => number_within(word.as_bytes(), 1, MAX_BUDGET),
        None => Some(Options::default().budget),
    }
}

/// Returns the options that a command was given, if each is in its range.
#[tactic(auto, using(crate::proofs::OptionLemmas::budget_range))]
pub fn options_in(given: &ArgMatches<'_>) -> Option<Options>
    ensures { result ≡ options_in (rows_of (found_of given.now)) }
{
    let usual = Options::default();
    Some(Options {
        amo: option_in(given, "amo", &AMO, usual.amo)?,
        card: option_in(given, "card", &CARD, usual.card)?,
        general: option_in(given, "general", &GENERAL, usual.general)?,
        equal: option_in(given, "equal", &EQUAL, usual.equal)?,
        budget: budget_in(given)?,
        table: false,
    })
}
