//! Encoding the problem of a file.
ghost use Rattle.pb_desk.specs.Desk.{IsClosed};
ghost use Rattle.pb_encode.specs.Encodings.{derivation_text};
ghost use Rattle.pb_words.specs.EncodeWords.{as_encode_words};
ghost use Rattle.pb_words.specs.inner.Fit.{IsFitEncode};
ghost use Rattle.pb_suite.specs.Implementing.{Implements};
ghost use Rattle.pb_suite.specs.EncodeSpec.{encode_spec};
ghost use Rattle.pb_suite.specs.Seen.{seen_from, Stays};

use crate::outcome::Outcome;
use crate::reading::read_problem;
use crate::storing::store;
use pb_desk::Desk;
use pb_encode::Names;
use pb_words::EncodeArgs;
use std::alloc::Global;

/// Makes the CNF file of a problem, and the file of the derivation if that is named, and prints the size of the encoding.
pub fn encode_file<D: Desk>(alloc: Global, asked: &EncodeArgs<'_>, desk: &mut D) -> Outcome
    requires closed { IsClosed (D.state desk.old) }
    requires fit { IsFitEncode (as_encode_words asked.now) }
    ensures implements { let new = D.state desk.new in Implements (encode_spec derivation_text (as_encode_words asked.now)) (seen_from new (D.state desk.old)) (seen_from new new) result }
    ensures stays { Stays (D.state desk.old) (D.state desk.new) }
{
    let names = Names {
        cnf: asked.cnf,
        proof: asked.proof,
    };
    match read_problem(alloc, asked.opb, asked.bound, desk) {
        Ok(problem) => store(alloc, &problem, &asked.options, &names, desk),
        Err(outcome) => outcome,
    }
}
