//! From the numbers of a refusal back to the outcome that they report.
ghost use Rattle.std.specs.Prelude.{◌≡◌, ◌≢◌, IfSome, IsNone};
ghost use Rattle.std.specs.Option.{option_map};
ghost use Rattle.pb_suite.specs.declared.outcome.Outcome.{Outcome};
ghost use Rattle.pbcnf_c.specs.Refusals.{refusal_of};
ghost use Rattle.pbcnf_c.specs.WordsSaid.{IsProper};
ghost use Rattle.pbcnf_c.specs.inner.Outcomes.{denied_at, expected_at, file_at, limit_at, limited_at, lrat_at, none_refuted_at, outcome_at, place_at, refused_at, rejected_at, var_at};

use crate::refusal::{PbcnfRefusal, refusal_of};
use pb_base::{Expected, File, LimitKind, Place, Var};
use pb_lrat::LratDenied;
use pb_steps::Denied;
use pb_suite::Outcome;

// Returns the text that a number of the C header names; `None` for 0, no text, and above 5.
fn file_at(number: u32) -> Option<File>
    ensures { result ≡ file_at number }
{
    match number {
        1 => Some(File::Opb),
        2 => Some(File::Cnf),
        3 => Some(File::Proof),
        4 => Some(File::Model),
        5 => Some(File::Lrat),
        _ => None,
    }
}

// Returns the limit that a number of the C header names; `None` for 0 and unknown numbers.
fn limit_at(number: u32) -> Option<LimitKind>
    ensures { result ≡ limit_at number }
{
    match number {
        1 => Some(LimitKind::Text),
        2 => Some(LimitKind::Statements),
        3 => Some(LimitKind::Terms),
        4 => Some(LimitKind::Weight),
        5 => Some(LimitKind::Bounds),
        6 => Some(LimitKind::Variables),
        7 => Some(LimitKind::Clauses),
        8 => Some(LimitKind::Line),
        9 => Some(LimitKind::Lines),
        10 => Some(LimitKind::Number),
        11 => Some(LimitKind::Name),
        _ => None,
    }
}

// Returns the expected token that a number of the C header names; `None` for 0 and unknown numbers.
fn expected_at(number: u32) -> Option<Expected>
    ensures { result ≡ expected_at number }
{
    match number {
        1 => Some(Expected::Start),
        2 => Some(Expected::Next),
        3 => Some(Expected::TermOrRelation),
        4 => Some(Expected::TermOrSemicolon),
        5 => Some(Expected::Literal),
        6 => Some(Expected::Integer),
        7 => Some(Expected::Semicolon),
        8 => Some(Expected::PLine),
        9 => Some(Expected::CnfWord),
        10 => Some(Expected::VarCount),
        11 => Some(Expected::ClauseCount),
        12 => Some(Expected::LineEnd),
        13 => Some(Expected::ClauseWord),
        14 => Some(Expected::CnfEnd),
        15 => Some(Expected::ModelLine),
        16 => Some(Expected::ModelLiteral),
        17 => Some(Expected::Opposite),
        18 => Some(Expected::ModelZero),
        19 => Some(Expected::Head),
        20 => Some(Expected::Loaded),
        21 => Some(Expected::LoadedCount),
        22 => Some(Expected::StepWord),
        23 => Some(Expected::Operand),
        24 => Some(Expected::Factor),
        25 => Some(Expected::Term),
        26 => Some(Expected::Id),
        27 => Some(Expected::SetVar),
        28 => Some(Expected::Arrow),
        29 => Some(Expected::Bit),
        30 => Some(Expected::DerivationEnd),
        31 => Some(Expected::LratId),
        32 => Some(Expected::LratLiteral),
        33 => Some(Expected::LratHint),
        34 => Some(Expected::LratEnd),
        _ => None,
    }
}

// Returns the place of a refusal; `None` if its line is 0, since lines count from 1.
fn place_at(refusal: &PbcnfRefusal) -> Option<Place>
    ensures { result ≡ place_at refusal.now }
{
    if refusal.line == 0 {
        return None;
    }
    Some(Place {
        line: refusal.line,
        column: refusal.column,
    })
}

// Returns the variable of this number; `None` unless it is from 1 to 2^31 - 1.
fn var_at(number: u64) -> Option<Var>
    ensures { result ≡ var_at number }
{
    if number == 0 || number >= 0x8000_0000 {
        return None;
    }
    Some(Var::new(number as u32))
}

// Returns the reason why a step is denied that a number of the C header names, with its variable or id.
fn denied_at(why: u32, number: u64) -> Option<Denied>
    ensures { result ≡ denied_at why number }
{
    match why {
        1 => {
            let var = var_at(number)?;
            Some(Denied::UnknownVar { var })
        }
        2 => Some(Denied::UnknownId { id: number }),
        3 => Some(Denied::Stack),
        4 => Some(Denied::Width),
        5 => {
            let var = var_at(number)?;
            Some(Denied::SetsOriginal { var })
        }
        6 => Some(Denied::NotPropagated),
        7 => Some(Denied::Obligation { id: number }),
        8 => Some(Denied::NoClause),
        9 => Some(Denied::NotImplied { id: number }),
        10 => Some(Denied::OutDeleted { id: number }),
        11 => Some(Denied::ClausesLeft),
        _ => None,
    }
}

// Returns the reason why a line of a refutation is denied that a number of the C header names, with its id.
fn lrat_at(why: u32, number: u64) -> Option<LratDenied>
    ensures { result ≡ lrat_at why number }
{
    match why {
        1 => Some(LratDenied::OldId { id: number }),
        2 => Some(LratDenied::UnknownHint { id: number }),
        3 => Some(LratDenied::NoConflict),
        4 => Some(LratDenied::NoEmptyClause),
        _ => None,
    }
}

// Returns the refusal of a text, if file, place and expected token are all named.
fn refused_at(refusal: &PbcnfRefusal) -> Option<Outcome>
    ensures { result ≡ refused_at refusal.now }
{
    let file = file_at(refusal.file)?;
    let place = place_at(refusal)?;
    let expected = expected_at(refusal.expected)?;
    Some(Outcome::Refused {
        file,
        place,
        expected,
    })
}

// Returns the outcome of a passed limit, if the limit is named, and the file too unless it is 0.
fn limited_at(refusal: &PbcnfRefusal) -> Option<Outcome>
    ensures { result ≡ limited_at refusal.now }
{
    let which = limit_at(refusal.limit)?;
    if refusal.file == 0 {
        return Some(Outcome::Limit {
            file: None,
            which,
            place: None,
        });
    }
    let file = file_at(refusal.file)?;
    Some(Outcome::Limit {
        file: Some(file),
        which,
        place: place_at(refusal),
    })
}

// Returns the outcome of a derivation that is rejected, if the reason is named.
fn rejected_at(refusal: &PbcnfRefusal) -> Option<Outcome>
    ensures { result ≡ rejected_at refusal.now }
{
    let denied = denied_at(refusal.denied, refusal.number)?;
    Some(Outcome::Rejected {
        line: refusal.line,
        denied,
    })
}

// Returns the outcome of a refutation that is denied, if the reason is named.
fn none_refuted_at(refusal: &PbcnfRefusal) -> Option<Outcome>
    ensures { result ≡ none_refuted_at refusal.now }
{
    let why = lrat_at(refusal.unproved, refusal.number)?;
    Some(Outcome::NotRefuted {
        line: refusal.line,
        why,
    })
}

// Returns the one outcome that can have these numbers, by the status first.
fn outcome_at(refusal: &PbcnfRefusal) -> Option<Outcome>
    ensures { result ≡ outcome_at refusal.now }
{
    match refusal.status {
        0 => Some(Outcome::Done),
        1 if refusal.line == 0 => Some(Outcome::NoObjective),
        1 => refused_at(refusal),
        2 => Some(Outcome::Usage),
        3 => limited_at(refusal),
        5 => Some(Outcome::WriteFault),
        6 => Some(Outcome::NoMemory),
        7 => rejected_at(refusal),
        8 => Some(Outcome::NotASolution {
            statement: refusal.number,
        }),
        9 => Some(Outcome::NoModel),
        10 => none_refuted_at(refusal),
        _ => None,
    }
}

// Returns the numbers of the one outcome that a refusal can stand for, to compare them with the refusal.
fn numbers_at(refusal: &PbcnfRefusal) -> Option<PbcnfRefusal>
    ensures { result ≡ option_map refusal_of (outcome_at refusal.now) }
{
    match outcome_at(refusal) {
        Some(outcome) => Some(refusal_of(outcome)),
        None => None,
    }
}

/// Returns the outcome with exactly these numbers, if a call has one.
pub fn outcome_of(refusal: &PbcnfRefusal) -> Option<Outcome>
    ensures some { IfSome result (λ outcome. refusal.now ≡ refusal_of outcome) }
    ensures none { IsNone result → (outcome : Outcome) → IsProper outcome → refusal.now ≢ refusal_of outcome }
{
    match numbers_at(refusal) {
        Some(told) => {
            if told == *refusal {
                outcome_at(refusal)
            } else {
                None
            }
        }
        None => None,
    }
}
