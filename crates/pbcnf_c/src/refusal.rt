//! Why a call did not do what was asked, in numbers.
ghost use Rattle.std.specs.Prelude.{◌≡◌};
ghost use Rattle.pbcnf_c.specs.Refusals.{blank, denied_number, denied_told, expected_number, file_number, limit_number, limit_told, lrat_number, lrat_told, objective_told, refusal_of, refused_told};
ghost use Rattle.pb_suite.specs.Statuses.{status_of};

use pb_base::{Expected, File, LimitKind, Place};
use pb_lrat::LratDenied;
use pb_steps::Denied;
use pb_suite::Outcome;

/// Why a call did not do what was asked. What does not apply is 0.
#[repr(C)]
#[derive(Clone, Copy, PartialEq, Eq)]
pub struct PbcnfRefusal {
    /// Of a place in a text, of a step that is not allowed, or of a line that is denied; from 1.
    pub line: u64,
    /// Of a place in a text, in bytes from 1.
    pub column: u64,
    /// The variable or id that goes with `denied` or `unproved`; the violated statement, or the constraint to blame, from 1.
    pub number: u64,
    /// What the call returned.
    pub status: u32,
    /// Which text, from 1.
    pub file: u32,
    /// What its grammar allows at the place, from 1.
    pub expected: u32,
    /// Which limit is passed, from 1.
    pub limit: u32,
    /// Why a step of a derivation is not allowed, from 1.
    pub denied: u32,
    /// Why a line of a refutation is denied, from 1.
    pub unproved: u32,
}

// Returns a refusal with this status and nothing else.
fn blank(status: u8) -> PbcnfRefusal
    ensures { result ≡ blank status }
{
    PbcnfRefusal {
        line: 0,
        column: 0,
        number: 0,
        status: u32::from(status),
        file: 0,
        expected: 0,
        limit: 0,
        denied: 0,
        unproved: 0,
    }
}

// The numbers of the three functions below are those of the C header, which stay the same whatever variants the types get.

// Returns the number of a text in the C header, from 1.
fn file_number(file: File) -> u32
    ensures { result ≡ file_number file }
{
    match file {
        File::Opb => 1,
        File::Cnf => 2,
        File::Proof => 3,
        File::Model => 4,
        File::Lrat => 5,
    }
}

// Returns the number of a limit in the C header, from 1.
fn limit_number(which: LimitKind) -> u32
    ensures { result ≡ limit_number which }
{
    match which {
        LimitKind::Text => 1,
        LimitKind::Statements => 2,
        LimitKind::Terms => 3,
        LimitKind::Weight => 4,
        LimitKind::Bounds => 5,
        LimitKind::Variables => 6,
        LimitKind::Clauses => 7,
        LimitKind::Line => 8,
        LimitKind::Lines => 9,
        LimitKind::Number => 10,
        LimitKind::Name => 11,
    }
}

// Returns the number of an expected token in the C header, from 1.
fn expected_number(expected: Expected) -> u32
    ensures { result ≡ expected_number expected }
{
    match expected {
        Expected::Start => 1,
        Expected::Next => 2,
        Expected::TermOrRelation => 3,
        Expected::TermOrSemicolon => 4,
        Expected::Literal => 5,
        Expected::Integer => 6,
        Expected::Semicolon => 7,
        Expected::PLine => 8,
        Expected::CnfWord => 9,
        Expected::VarCount => 10,
        Expected::ClauseCount => 11,
        Expected::LineEnd => 12,
        Expected::ClauseWord => 13,
        Expected::CnfEnd => 14,
        Expected::ModelLine => 15,
        Expected::ModelLiteral => 16,
        Expected::Opposite => 17,
        Expected::ModelZero => 18,
        Expected::Head => 19,
        Expected::Loaded => 20,
        Expected::LoadedCount => 21,
        Expected::StepWord => 22,
        Expected::Operand => 23,
        Expected::Factor => 24,
        Expected::Term => 25,
        Expected::Id => 26,
        Expected::SetVar => 27,
        Expected::Arrow => 28,
        Expected::Bit => 29,
        Expected::DerivationEnd => 30,
        Expected::LratId => 31,
        Expected::LratLiteral => 32,
        Expected::LratHint => 33,
        Expected::LratEnd => 34,
    }
}

// Returns the number of the reason why a step is denied, from 1, and the variable or id that goes with it; 0 if none does.
fn denied_number(denied: Denied) -> (u32, u64)
    ensures { result ≡ denied_number denied }
{
    match denied {
        Denied::UnknownVar { var } => (1, u64::from(var.index())),
        Denied::UnknownId { id } => (2, id),
        Denied::Stack => (3, 0),
        Denied::Width => (4, 0),
        Denied::SetsOriginal { var } => (5, u64::from(var.index())),
        Denied::NotPropagated => (6, 0),
        Denied::Obligation { id } => (7, id),
        Denied::NoClause => (8, 0),
        Denied::NotImplied { id } => (9, id),
        Denied::OutDeleted { id } => (10, id),
        Denied::ClausesLeft => (11, 0),
    }
}

// Returns the number of the reason why a line of a refutation is denied, from 1, and the id that goes with it; 0 if none does.
fn lrat_number(why: LratDenied) -> (u32, u64)
    ensures { result ≡ lrat_number why }
{
    match why {
        LratDenied::OldId { id } => (1, id),
        LratDenied::UnknownHint { id } => (2, id),
        LratDenied::NoConflict => (3, 0),
        LratDenied::NoEmptyClause => (4, 0),
    }
}

// Returns the refusal that a text is not in its grammar.
fn refused_told(file: File, place: Place, expected: Expected) -> PbcnfRefusal
    ensures { result ≡ refused_told file place expected }
{
    let mut told = blank(1);
    told.file = file_number(file);
    told.line = place.line;
    told.column = place.column;
    told.expected = expected_number(expected);
    told
}

// Returns the refusal that a limit is passed; a text and a place only if there are any.
fn limit_told(file: Option<File>, which: LimitKind, place: Option<Place>) -> PbcnfRefusal
    ensures { result ≡ limit_told file which place }
{
    let mut told = blank(3);
    told.limit = limit_number(which);
    if let Some(file) = file {
        told.file = file_number(file);
    }
    if let Some(place) = place {
        told.line = place.line;
        told.column = place.column;
    }
    told
}

// Returns the refusal that the step at a line of a derivation is not allowed.
fn denied_told(line: u64, denied: Denied) -> PbcnfRefusal
    ensures { result ≡ denied_told line denied }
{
    let (why, number) = denied_number(denied);
    let mut told = blank(7);
    told.line = line;
    told.denied = why;
    told.number = number;
    told
}

// Returns the refusal that a line of a refutation is denied.
fn lrat_told(line: u64, why: LratDenied) -> PbcnfRefusal
    ensures { result ≡ lrat_told line why }
{
    let (why, number) = lrat_number(why);
    let mut told = blank(10);
    told.line = line;
    told.unproved = why;
    told.number = number;
    told
}

// Returns the refusal that an OPB text has no objective; it names no place.
fn objective_told() -> PbcnfRefusal
    ensures { result ≡ objective_told }
{
    let mut told = blank(1);
    told.file = file_number(File::Opb);
    told
}

/// Returns the numbers of an outcome.
pub fn refusal_of(outcome: Outcome) -> PbcnfRefusal
    ensures { result ≡ refusal_of outcome }
{
    match outcome {
        Outcome::Done => blank(0),
        Outcome::Refused {
            file,
            place,
            expected,
        } => refused_told(file, place, expected),
        Outcome::Usage => blank(2),
        Outcome::Limit { file, which, place } => limit_told(file, which, place),
        Outcome::ReadFault => blank(4),
        Outcome::WriteFault => blank(5),
        Outcome::NoMemory => blank(6),
        Outcome::Rejected { line, denied } => denied_told(line, denied),
        Outcome::NotASolution { statement } => {
            let mut told = blank(8);
            told.number = statement;
            told
        }
        Outcome::NoModel => blank(9),
        Outcome::NoObjective => objective_told(),
        Outcome::NotRefuted { line, why } => lrat_told(line, why),
    }
}

/// Reports how a call ended, and returns its status.
pub fn tell(outcome: Outcome, refusal: &mut PbcnfRefusal) -> u8
    ensures status { result ≡ status_of outcome }
    ensures numbers { refusal.new ≡ refusal_of outcome }
{
    *refusal = refusal_of(outcome);
    outcome.status()
}

/// Reports how a call ended, with the number of the constraint to blame, and returns its status.
pub fn tell_at(outcome: Outcome, at: u64, refusal: &mut PbcnfRefusal) -> u8
    ensures status { result ≡ status_of outcome }
    ensures numbers { refusal.new ≡ record (refusal_of outcome) { number = at } }
{
    let mut told = refusal_of(outcome);
    told.number = at;
    *refusal = told;
    outcome.status()
}
