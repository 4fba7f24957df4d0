//! The words of `encode`.
ghost use Rattle.std.specs.Prelude.{◌≡◌, option_copied, option_map, not, ◌∷◌};
ghost use Rattle.std.specs.Option.{option_to_list};
ghost use Rattle.clap.specs.Words.{found_of, rows_of};
ghost use Rattle.pb_words.specs.Names.{are_different};
ghost use Rattle.pb_words.specs.EncodeWords.{as_encode_words, encode_in};

use crate::argument::{Argument, word_of};
use crate::bound::{BOUND, bound_in};
use crate::command::Syntax;
use crate::options::OPTIONS;
use crate::table::{TABLE, tabled_in};
use clap::ArgMatches;
use pb_base::Options;

/// Encode a problem: the file that is read, the files that are made, and how.
#[derive(Clone, Copy)]
pub struct EncodeArgs<'a> {
    /// The name of the OPB file.
    pub opb: &'a str,
    /// The name of the CNF file, which is another.
    pub cnf: &'a str,
    /// The name of the derivation, which is a third, if one is made.
    pub proof: Option<&'a str>,
    /// How constraints are encoded.
    pub options: Options,
    /// What the objective is at most, if that is asked for.
    pub bound: Option<i128>,
}

/// `encode OPB CNF [PROOF]`, the options, a bound and a table of bounds.
pub const COMMAND: Syntax<'static> = Syntax {
    name: "encode",
    groups: &[
        &[
            Argument::Name("opb"),
            Argument::Name("cnf"),
            Argument::OptionalName("proof"),
        ],
        &OPTIONS,
        &BOUND,
        &TABLE,
    ],
};

// True if two of the names are equal.
fn are_equal(opb: &str, cnf: &str, proof: Option<&str>) -> bool
    ensures { not result ≡ are_different (opb.now ∷ cnf.now ∷ option_to_list (option_copied proof.entry)) }
{
    match proof {
        Some(proof) => opb == cnf || opb == proof || cnf == proof,
        None => opb == cnf,
    }
}

/// Returns the arguments of `encode`, if its names are different, and its options and its bound are in their ranges.
pub fn encode_args_in<'a>(given: &ArgMatches<'a>) -> Option<EncodeArgs<'a>>
    ensures { option_map as_encode_words result ≡ encode_in (rows_of (found_of given.now)) }
{
    let opb = word_of(given, "opb")?;
    let cnf = word_of(given, "cnf")?;
    let proof = word_of(given, "proof");
    let options = tabled_in(given)?;
    let bound = bound_in(given)?;
    if are_equal(opb, cnf, proof) {
        return None;
    }
    Some(EncodeArgs {
        opb,
        cnf,
        proof,
        options,
        bound,
    })
}
