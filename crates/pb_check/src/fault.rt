//! Faults by their places.
ghost use Rattle.std.specs.Prelude.{◌≡◌, ◌<◌, ◌+◌, ◌^◌};
ghost use Rattle.pb_base.specs.Words.{words_of};
ghost use Rattle.pb_dimacs.specs.CnfRows.{line_start};
ghost use Rattle.pb_check.specs.Outcomes.{NamesText};
ghost use Rattle.pb_check.specs.Faults.{first_column, second_column, of_cnf, of_step, of_line, misplaced_line, miscounted_line};

use crate::verdict::CheckFault;
use pb_base::{Expected, File, Place, words};
use pb_desk::{LineFault, LineReader};
use pb_dimacs::{CnfFault, CnfHead, limit_place};
use pb_steps::StepFault;

/// Returns the fault of checking that a fault of the CNF text is.
pub fn of_cnf(fault: CnfFault) -> CheckFault
    ensures value { result ≡ of_cnf fault }
    ensures named { NamesText result }
{
    match fault {
        CnfFault::Token { place, expected } => CheckFault::Refused {
            file: File::Cnf,
            place,
            expected,
        },
        CnfFault::Limit { place, which } => CheckFault::Limit {
            file: File::Cnf,
            place,
            which,
        },
        CnfFault::Failed => CheckFault::ReadFault,
        CnfFault::NoMemory => CheckFault::NoMemory,
    }
}

/// Returns the fault of checking that a fault of a derivation's line is; lines count from 1.
pub fn of_step(number: u64, fault: StepFault) -> CheckFault
    ensures value { result ≡ of_step number fault }
    ensures named { NamesText result }
{
    match fault {
        StepFault::Token { column, expected } => CheckFault::Refused {
            file: File::Proof,
            place: Place {
                line: number,
                column,
            },
            expected,
        },
        StepFault::Limit { column, which } => CheckFault::Limit {
            file: File::Proof,
            place: Some(Place {
                line: number,
                column,
            }),
            which,
        },
        StepFault::NoMemory => CheckFault::NoMemory,
    }
}

/// Returns the fault of a CNF with fewer variables than the problem, at the number in its p line.
pub fn too_few_vars(head: &CnfHead) -> CheckFault
    ensures { result ≡ CheckFault.Refused File.Cnf head.now.place Expected.VarCount }
{
    CheckFault::Refused {
        file: File::Cnf,
        place: head.place,
        expected: Expected::VarCount,
    }
}

/// Returns the fault of a derivation one of whose lines was not read.
pub fn of_line(fault: LineFault) -> CheckFault
    ensures value { result ≡ of_line fault }
    ensures named { NamesText result }
{
    match fault {
        LineFault::Failed => CheckFault::ReadFault,
        LineFault::NoMemory => CheckFault::NoMemory,
        LineFault::Limit { which, line } => CheckFault::Limit {
            file: File::Proof,
            place: limit_place(which, Place { line, column: 1 }),
            which,
        },
    }
}

// Returns the column, from 1, of the first word of a line; 1 if there is none.
fn first_column(line: &[u8]) -> u64
    ensures { result ≡ first_column (words_of line.now) }
{
    match words(line).next() {
        Some(word) => word.column,
        None => 1,
    }
}

// Returns the column, from 1, of the second word of a line; 1 if there is none.
fn second_column(line: &[u8]) -> u64
    ensures { result ≡ second_column (words_of line.now) }
{
    let mut words = words(line);
    match words.next() {
        None => 1,
        Some(_) => match words.next() {
            Some(word) => word.column,
            None => 1,
        },
    }
}

/// Returns the fault that the last line that was read is not one that may come there.
pub fn misplaced(lines: &LineReader, expected: Expected) -> CheckFault
    ensures { result ≡ misplaced_line lines.now.number lines.now.line expected }
{
    CheckFault::Refused {
        file: File::Proof,
        place: Place {
            line: lines.number(),
            column: first_column(lines.line()),
        },
        expected,
    }
}

/// Returns the fault that the last line that was read states a wrong number of constraints.
pub fn miscounted(lines: &LineReader) -> CheckFault
    ensures { result ≡ miscounted_line lines.now.number lines.now.line }
{
    CheckFault::Refused {
        file: File::Proof,
        place: Place {
            line: lines.number(),
            column: second_column(lines.line()),
        },
        expected: Expected::LoadedCount,
    }
}

/// Returns the fault that the derivation ends before its last line.
pub fn end_fault(lines: &LineReader) -> CheckFault
    requires { lines.now.number < 2 ^ 63 }
    ensures { result ≡ CheckFault.Refused File.Proof (line_start (lines.now.number + 1)) Expected.StepWord }
{
    CheckFault::Refused {
        file: File::Proof,
        place: Place {
            line: lines.number() + 1,
            column: 1,
        },
        expected: Expected::StepWord,
    }
}
