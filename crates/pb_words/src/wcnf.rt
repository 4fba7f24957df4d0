//! The words of `wcnf`.
ghost use Rattle.std.specs.Prelude.{◌≡◌, option_map};
ghost use Rattle.clap.specs.Words.{found_of, rows_of};
ghost use Rattle.pb_words.specs.WcnfWords.{as_wcnf_words, wcnf_in};

use crate::argument::{Argument, word_of};
use crate::bound::{BOUND, bound_in};
use crate::command::Syntax;
use crate::options::{OPTIONS, options_in};
use clap::ArgMatches;
use pb_base::Options;

/// Encode a problem and its objective: the file that is read, the file that is made, and how.
#[derive(Clone, Copy)]
pub struct WcnfArgs<'a> {
    /// The name of the OPB file.
    pub opb: &'a str,
    /// The name of the weighted CNF file, which is another.
    pub wcnf: &'a str,
    /// How constraints are encoded.
    pub options: Options,
    /// What the objective is at most, if that is asked for.
    pub bound: Option<i128>,
}

/// `wcnf OPB WCNF`, the options and a bound.
pub const COMMAND: Syntax<'static> = Syntax {
    name: "wcnf",
    groups: &[
        &[Argument::Name("opb"), Argument::Name("wcnf")],
        &OPTIONS,
        &BOUND,
    ],
};

/// Returns the arguments of `wcnf`, if its names are different, and its options and its bound are in their ranges.
pub fn wcnf_args_in<'a>(given: &ArgMatches<'a>) -> Option<WcnfArgs<'a>>
    ensures { option_map as_wcnf_words result ≡ wcnf_in (rows_of (found_of given.now)) }
{
    let opb = word_of(given, "opb")?;
    let wcnf = word_of(given, "wcnf")?;
    let options = options_in(given)?;
    let bound = bound_in(given)?;
    if opb == wcnf {
        return None;
    }
    Some(WcnfArgs {
        opb,
        wcnf,
        options,
        bound,
    })
}
