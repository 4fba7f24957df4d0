//! The words of `bench`.
ghost use Rattle.std.specs.Prelude.{◌≡◌, option_map};
ghost use Rattle.clap.specs.Words.{found_of, rows_of};
ghost use Rattle.pb_words.specs.BenchWords.{as_bench_words, bench_in, number_in};

use crate::argument::{Argument, word_of};
use crate::command::Syntax;
use crate::digits::short_within;
use clap::ArgMatches;

// The most statements of a problem that is generated.
const MAX_COUNT: u32 = 1_000_000;

/// Encode a generated problem: which one, and the file that is made, if one is.
#[derive(Clone, Copy)]
pub struct BenchArgs<'a> {
    /// How many statements the problem has, up to 1,000,000.
    pub count: u32,
    /// What its draws begin with.
    pub seed: u32,
    /// The name of the CNF file.
    pub cnf: Option<&'a str>,
}

/// `bench N SEED [CNF]`
pub const COMMAND: Syntax<'static> = Syntax {
    name: "bench",
    groups: &[&[
        Argument::Name("n"),
        Argument::Name("seed"),
        Argument::OptionalName("cnf"),
    ]],
};

// Returns the number of an argument, in digits alone, if it is at most `most`.
fn number_in(given: &ArgMatches<'_>, id: &str, most: u32) -> Option<u32>
    ensures { result ≡ number_in most id.now (rows_of (found_of given.now)) }
{
    short_within(word_of(given, id)?.as_bytes(), most)
}

/// Returns the arguments of `bench`, if a number is in its range.
pub fn bench_args_in<'a>(given: &ArgMatches<'a>) -> Option<BenchArgs<'a>>
    ensures { option_map as_bench_words result ≡ bench_in (rows_of (found_of given.now)) }
{
    Some(BenchArgs {
        count: number_in(given, "n", MAX_COUNT)?,
        seed: number_in(given, "seed", u32::MAX)?,
        cnf: word_of(given, "cnf"),
    })
}
