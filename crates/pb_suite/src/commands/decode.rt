//! Decoding the model of a file.
ghost use Rattle.std.specs.Prelude.{◌≡◌, ◌<◌, ◌^◌, ℕ, length, false, Ok, Err, IsNone, IfOk, IfErr};
ghost use Rattle.pb_base.specs.Problems.{IsWithinLimits};
ghost use Rattle.pb_desk.specs.Desk.{IfTold, IsClosed, IsSteady, IsTold};
ghost use Rattle.pb_model.specs.Decoding.{IsDecoded};
ghost use Rattle.pb_model.specs.ModelReading.{told};
ghost use Rattle.pb_words.specs.DecodeWords.{as_decode_words};
ghost use Rattle.pb_words.specs.Parsed.Wanted.{Decode};
ghost use Rattle.pb_suite.specs.Implementing.{Implements};
ghost use Rattle.pb_suite.specs.InTurn.{OpensInTurn};
ghost use Rattle.pb_suite.specs.DecodeSpec.{decode_spec, IsAnswered};
ghost use Rattle.pb_suite.specs.Refusals.{RefusesModel};
ghost use Rattle.pb_suite.specs.inner.Runs.{model_refusal, Fetches, HasText, IsUnendedIn, StopsReading};
ghost use Rattle.pb_suite.specs.Seen.{seen_from, Stays};

use crate::outcome::{Outcome, limited, refused};
use crate::reading::{read_problem, read_text};
use crate::saying::say;
use pb_base::{File, NoMemory, Problem};
use pb_desk::Desk;
use pb_model::{Decoded, Model, ModelFault, decode, read_model, write_solution};
use pb_words::DecodeArgs;
use std::alloc::Global;

/// Returns the outcome that reports a fault of a model text.
pub fn model_refusal(fault: ModelFault) -> Outcome
    ensures { result ≡ model_refusal fault }
{
    match fault {
        ModelFault::Token { place, expected } => refused(File::Model, place, expected),
        ModelFault::Limit { place, which } => limited(File::Model, place, which),
        ModelFault::NoMemory => Outcome::NoMemory,
    }
}

/// Reads what a solver printed of so many variables, in this slot, or says why not.
pub fn read_answer<D: Desk>(
    alloc: Global,
    desk: &mut D,
    slot: u8,
    name: &str,
    vars: u32,
) -> Result<Model, Outcome>
    requires few { vars < 2 ^ 31 }
    requires slot { slot < 5 }
    requires free { (D.state desk.old).view.reading slot ≡ false }
    ensures covers { IfOk result (λ m. length m.values ≡ vars) }
    ensures stays { Stays (D.state desk.old) (D.state desk.new) }
    ensures read { IfOk result (λ m. (count : ℕ) × Fetches slot name.now count (D.state desk.old) (D.state desk.new)) }
    ensures says { IfOk result (λ m. HasText name.now (λ text. told vars text ≡ Ok m) (seen_from (D.state desk.new) (D.state desk.old))) }
    ensures stopped { IfErr result (StopsReading File.Model slot name.now (RefusesModel vars) (seen_from (D.state desk.new) (D.state desk.old)) (seen_from (D.state desk.new) (D.state desk.new))) }
    ensures unended { result ≡ Err Outcome.ReadFault → IsUnendedIn slot name.now (seen_from (D.state desk.new) (D.state desk.new)) }
    ensures steady { let seen = seen_from (D.state desk.new) (D.state desk.old) in IsSteady seen → result ≡ Err Outcome.ReadFault → IsTold seen (λ t. IsNone (t.shelf name.now)) }
{
    let text = match read_text(alloc, desk, slot, File::Model, name) {
        Ok(text) => text,
        Err(outcome) => return Err(outcome),
    };
    match read_model(alloc, text.as_slice(), vars) {
        Ok(model) => Ok(model),
        Err(fault) => Err(model_refusal(fault)),
    }
}

// Prints the solution that a model gives.
fn say_solution<D: Desk>(
    alloc: Global,
    problem: &Problem,
    model: &Model,
    asked: &DecodeArgs<'_>,
    desk: &mut D,
) -> Outcome
    requires within { IsWithinLimits problem.now }
    requires solution { IsDecoded problem.now model.now Decoded.Solution }
    requires covers { length model.now.values ≡ problem.now.vars }
    requires answered { IfTold (seen_from (D.state desk.old) (D.state desk.old)) (λ t. IsAnswered t.shelf (as_decode_words asked.now) problem.now model.now) }
    ensures implements { let new = D.state desk.new in Implements (decode_spec (as_decode_words asked.now)) (seen_from new (D.state desk.old)) (seen_from new new) result }
    ensures stays { Stays (D.state desk.old) (D.state desk.new) }
{
    let mut text = Vec::new(alloc);
    match write_solution(alloc, problem, &model.values, &mut text) {
        Ok(()) => say(desk, &text),
        Err(NoMemory) => Outcome::NoMemory,
    }
}

// Prints the solution that a model gives, or answers why it gives none.
fn say_decoded<D: Desk>(
    alloc: Global,
    problem: &Problem,
    model: &Model,
    asked: &DecodeArgs<'_>,
    desk: &mut D,
) -> Outcome
    requires within { IsWithinLimits problem.now }
    requires covers { length model.now.values ≡ problem.now.vars }
    requires answered { IfTold (seen_from (D.state desk.old) (D.state desk.old)) (λ t. IsAnswered t.shelf (as_decode_words asked.now) problem.now model.now) }
    ensures implements { let new = D.state desk.new in Implements (decode_spec (as_decode_words asked.now)) (seen_from new (D.state desk.old)) (seen_from new new) result }
    ensures stays { Stays (D.state desk.old) (D.state desk.new) }
{
    match decode(problem, model) {
        Decoded::NoModel => Outcome::NoModel,
        Decoded::Violates { statement } => Outcome::NotASolution { statement },
        Decoded::Solution => say_solution(alloc, problem, model, asked, desk),
    }
}

/// Prints the solution of a problem that a solver's model gives. The values are tested against each statement.
///
/// ```text
/// +1 x1 +1 x2 +1 x3 = 1 ;                   the problem
/// s SATISFIABLE\nv 1 -2 -3 0\n              the model
/// s SATISFIABLE\nv x1 -x2 -x3\n             is printed; after `s UNSATISFIABLE` the answer is `NoModel`
/// ```
pub fn decode_file<D: Desk>(alloc: Global, asked: &DecodeArgs<'_>, desk: &mut D) -> Outcome
    requires closed { IsClosed (D.state desk.old) }
    ensures implements { let new = D.state desk.new in Implements (decode_spec (as_decode_words asked.now)) (seen_from new (D.state desk.old)) (seen_from new new) result }
    ensures in_turn { let new = D.state desk.new in OpensInTurn (Decode (as_decode_words asked.now)) (seen_from new (D.state desk.old)) (seen_from new new) }
    ensures stays { Stays (D.state desk.old) (D.state desk.new) }
{
    let problem = match read_problem(alloc, asked.opb, asked.bound, desk) {
        Ok(problem) => problem,
        Err(outcome) => return outcome,
    };
    let model = match read_answer(alloc, desk, 1, asked.model, problem.vars) {
        Ok(model) => model,
        Err(outcome) => return outcome,
    };
    say_decoded(alloc, &problem, &model, asked, desk)
}
