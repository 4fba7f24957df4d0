//! The words of `refute`.
ghost use Rattle.std.specs.Prelude.{◌≡◌, option_map};
ghost use Rattle.clap.specs.Words.{found_of, rows_of};
ghost use Rattle.pb_words.specs.RefuteWords.{as_refute_words, refute_in};

use crate::argument::{Argument, word_of};
use crate::bound::BOUND;
use crate::check::{CheckArgs, NAMES, check_args_in};
use crate::command::Syntax;
use clap::ArgMatches;

/// Check a derivation and a refutation of the CNF: the four files that are read.
#[derive(Clone, Copy)]
pub struct RefuteArgs<'a> {
    /// What is checked first.
    pub checking: CheckArgs<'a>,
    /// The name of the refutation, which is a fourth.
    pub lrat: &'a str,
}

/// `refute OPB CNF PROOF LRAT` and a bound.
pub const COMMAND: Syntax<'static> = Syntax {
    name: "refute",
    groups: &[&NAMES, &[Argument::Name("lrat")], &BOUND],
};

/// Returns the arguments of `refute`: those of `check`, and a refutation of another name.
pub fn refute_args_in<'a>(given: &ArgMatches<'a>) -> Option<RefuteArgs<'a>>
    ensures { option_map as_refute_words result ≡ refute_in (rows_of (found_of given.now)) }
{
    let checking = check_args_in(given)?;
    let lrat = word_of(given, "lrat")?;
    if checking.opb == lrat || checking.cnf == lrat || checking.proof == lrat {
        return None;
    }
    Some(RefuteArgs { checking, lrat })
}
