//! The words of `check`.
ghost use Rattle.std.specs.Prelude.{◌≡◌, option_map};
ghost use Rattle.clap.specs.Words.{found_of, rows_of};
ghost use Rattle.pb_words.specs.CheckWords.{as_check_words, check_in};

use crate::argument::{Argument, word_of};
use crate::bound::{BOUND, bound_in};
use crate::command::Syntax;
use clap::ArgMatches;

/// Check a derivation: the three files that are read.
#[derive(Clone, Copy)]
pub struct CheckArgs<'a> {
    /// The name of the OPB file.
    pub opb: &'a str,
    /// The name of the CNF file, which is another.
    pub cnf: &'a str,
    /// The name of the derivation, which is a third.
    pub proof: &'a str,
    /// What the objective is at most, if that is asked for.
    pub bound: Option<i128>,
}

/// The names of the three files.
pub const NAMES: [Argument<'static>; 3] = [
    Argument::Name("opb"),
    Argument::Name("cnf"),
    Argument::Name("proof"),
];

/// `check OPB CNF PROOF` and a bound.
pub const COMMAND: Syntax<'static> = Syntax {
    name: "check",
    groups: &[&NAMES, &BOUND],
};

/// Returns the arguments of `check`, if its names are different and its bound is one.
pub fn check_args_in<'a>(given: &ArgMatches<'a>) -> Option<CheckArgs<'a>>
    ensures { option_map as_check_words result ≡ check_in (rows_of (found_of given.now)) }
{
    let opb = word_of(given, "opb")?;
    let cnf = word_of(given, "cnf")?;
    let proof = word_of(given, "proof")?;
    let bound = bound_in(given)?;
    if opb == cnf || opb == proof || cnf == proof {
        return None;
    }
    Some(CheckArgs {
        opb,
        cnf,
        proof,
        bound,
    })
}
