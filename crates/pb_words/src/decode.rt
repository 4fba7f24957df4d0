//! The words of `decode`.
ghost use Rattle.std.specs.Prelude.{◌≡◌, option_map};
ghost use Rattle.clap.specs.Words.{found_of, rows_of};
ghost use Rattle.pb_words.specs.DecodeWords.{as_decode_words, decode_in};

use crate::argument::{Argument, word_of};
use crate::bound::{BOUND, bound_in};
use crate::command::Syntax;
use clap::ArgMatches;

/// Decode a model: the two files that are read.
#[derive(Clone, Copy)]
pub struct DecodeArgs<'a> {
    /// The name of the OPB file.
    pub opb: &'a str,
    /// The name of the file that a solver printed, which is another.
    pub model: &'a str,
    /// What the objective is at most, if that is asked for.
    pub bound: Option<i128>,
}

/// `decode OPB MODEL` and a bound.
pub const COMMAND: Syntax<'static> = Syntax {
    name: "decode",
    groups: &[&[Argument::Name("opb"), Argument::Name("model")], &BOUND],
};

/// Returns the arguments of `decode`, if its names are different and its bound is one.
pub fn decode_args_in<'a>(given: &ArgMatches<'a>) -> Option<DecodeArgs<'a>>
    ensures { option_map as_decode_words result ≡ decode_in (rows_of (found_of given.now)) }
{
    let opb = word_of(given, "opb")?;
    let model = word_of(given, "model")?;
    let bound = bound_in(given)?;
    if opb == model {
        return None;
    }
    Some(DecodeArgs { opb, model, bound })
}
