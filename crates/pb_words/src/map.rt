//! The words of `map`.
ghost use Rattle.std.specs.Prelude.{◌≡◌, option_map};
ghost use Rattle.clap.specs.Words.{found_of, rows_of};
ghost use Rattle.pb_words.specs.MapWords.{as_map_words, map_in};

use crate::argument::{Argument, word_of};
use crate::command::Syntax;
use clap::ArgMatches;

/// List the free names of a problem: the file that is read.
#[derive(Clone, Copy)]
pub struct MapArgs<'a> {
    /// The name of the OPB file.
    pub opb: &'a str,
}

/// `map OPB`
pub const COMMAND: Syntax<'static> = Syntax {
    name: "map",
    groups: &[&[Argument::Name("opb")]],
};

/// Returns the arguments of `map`.
pub fn map_args_in<'a>(given: &ArgMatches<'a>) -> Option<MapArgs<'a>>
    ensures { option_map as_map_words result ≡ map_in (rows_of (found_of given.now)) }
{
    Some(MapArgs {
        opb: word_of(given, "opb")?,
    })
}
