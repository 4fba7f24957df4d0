//! The words of `probe`.
ghost use Rattle.std.specs.Prelude.{◌≡◌, [], IfOk, IsErrOf, None, Some, codes, unwrap_or};
ghost use Rattle.clap.specs.Words.{all_of, found_of, rows_of};
ghost use Rattle.pb_words.specs.LitWords.{lits_in};
ghost use Rattle.pb_words.specs.ProbeWords.{as_probe_words, probe_in};

use crate::argument::{Argument, word_of, words_of};
use crate::command::Syntax;
use crate::fault::WordsFault;
use crate::literal::lits_in;
use clap::ArgMatches;
use pb_base::Lits;
use std::alloc::Global;

/// Propagate some literals over a CNF: the file that is read, and the literals.
#[derive(Drop)]
pub struct ProbeArgs<'a> {
    /// The name of the CNF file.
    pub cnf: &'a str,
    /// The literals that are given.
    pub lits: Lits,
}

/// `probe CNF LIT ..`
pub const COMMAND: Syntax<'static> = Syntax {
    name: "probe",
    groups: &[&[Argument::Name("cnf"), Argument::Words("lits")]],
};

// Returns the literals that were given; `Usage` if one of the words is none.
fn given_lits(alloc: Global, given: &ArgMatches<'_>) -> Result<Lits, WordsFault>
    ensures asked { IfOk result (λ lits. lits_in (unwrap_or (all_of (codes "lits") (rows_of (found_of given.now))) []) ≡ Some lits) }
    ensures usage { IsErrOf result WordsFault.Usage → lits_in (unwrap_or (all_of (codes "lits") (rows_of (found_of given.now))) []) ≡ None }
{
    match words_of(given, "lits") {
        Some(words) => lits_in(alloc, words),
        None => Ok(Lits::new(alloc)),
    }
}

/// Returns the arguments of `probe`; `Usage` if a word is no literal.
pub fn probe_args_in<'a>(alloc: Global, given: &ArgMatches<'a>) -> Result<ProbeArgs<'a>, WordsFault>
    ensures asked { IfOk result (λ p. probe_in (rows_of (found_of given.now)) ≡ Some (as_probe_words p)) }
    ensures usage { IsErrOf result WordsFault.Usage → probe_in (rows_of (found_of given.now)) ≡ None }
{
    let Some(cnf) = word_of(given, "cnf") else {
        return Err(WordsFault::Usage);
    };
    match given_lits(alloc, given) {
        Ok(lits) => Ok(ProbeArgs { cnf, lits }),
        Err(fault) => Err(fault),
    }
}
