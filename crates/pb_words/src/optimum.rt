//! The words of `optimum`.
ghost use Rattle.std.specs.Prelude.{◌≡◌, option_map};
ghost use Rattle.clap.specs.Words.{found_of, rows_of};
ghost use Rattle.pb_words.specs.OptimumWords.{as_optimum_words, optimum_in};

use crate::argument::{Argument, word_of};
use crate::command::Syntax;
use clap::ArgMatches;

/// Prove a solution optimal: the five files that are read, no two of one name.
#[derive(Clone, Copy)]
pub struct OptimumArgs<'a> {
    /// The name of the OPB file.
    pub opb: &'a str,
    /// The name of the file that a solver printed.
    pub model: &'a str,
    /// The name of the CNF file of the problem with a bound below the value of that solution.
    pub cnf: &'a str,
    /// The name of the derivation of its clauses.
    pub proof: &'a str,
    /// The name of the refutation of the CNF.
    pub lrat: &'a str,
}

/// `optimum OPB MODEL CNF PROOF LRAT`.
pub const COMMAND: Syntax<'static> = Syntax {
    name: "optimum",
    groups: &[&[
        Argument::Name("opb"),
        Argument::Name("model"),
        Argument::Name("cnf"),
        Argument::Name("proof"),
        Argument::Name("lrat"),
    ]],
};

/// Returns the arguments of `optimum`, if its five names are different.
pub fn optimum_args_in<'a>(given: &ArgMatches<'a>) -> Option<OptimumArgs<'a>>
    ensures { option_map as_optimum_words result ≡ optimum_in (rows_of (found_of given.now)) }
{
    let opb = word_of(given, "opb")?;
    let model = word_of(given, "model")?;
    let cnf = word_of(given, "cnf")?;
    let proof = word_of(given, "proof")?;
    let lrat = word_of(given, "lrat")?;
    if opb == model || opb == cnf || opb == proof || opb == lrat {
        return None;
    }
    if model == cnf || model == proof || model == lrat {
        return None;
    }
    if cnf == proof || cnf == lrat || proof == lrat {
        return None;
    }
    Some(OptimumArgs {
        opb,
        model,
        cnf,
        proof,
        lrat,
    })
}
