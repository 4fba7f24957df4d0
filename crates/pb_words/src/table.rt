// A table of bounds on the objective, in words.
ghost use Rattle.std.specs.Prelude.{◌≡◌};
ghost use Rattle.clap.specs.Words.{found_of, rows_of};
ghost use Rattle.pb_words.specs.TableWords.{table_in, tabled_in};

use crate::argument::{Argument, word_of};
use crate::options::options_in;
use clap::ArgMatches;
use pb_base::Options;

/// The option by which a command takes a table of bounds.
pub const TABLE: [Argument<'static>; 1] = [Argument::Flag("table")];

// True if the command was given `--table`.
fn table_in(given: &ArgMatches<'_>) -> bool
    ensures { result ≡ table_in (rows_of (found_of given.now)) }
{
    match word_of(given, "table") {
        Some(word) => word == "true",
        None => false,
    }
}

/// Returns the options that a command was given, with a table if `--table` is among them.
pub fn tabled_in(given: &ArgMatches<'_>) -> Option<Options>
    ensures { result ≡ tabled_in (rows_of (found_of given.now)) }
{
    let mut options = options_in(given)?;
    options.table = table_in(given);
    Some(options)
}
