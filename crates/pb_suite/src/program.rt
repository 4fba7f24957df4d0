//! The program, but for the desk: its words, the fault line and the exit status.
ghost use Rattle.std.specs.Prelude.{◌≡◌, ℕ, false};
ghost use Rattle.std.specs.Process.{exit_status};
ghost use Rattle.pb_desk.specs.Desk.{IsClosed};
ghost use Rattle.pb_suite.specs.Programs.{AnswersSome, Exits};
ghost use Rattle.pb_suite.specs.Seen.{Stays};

use crate::diagnostics::{Diagnostics, tell};
use crate::outcome::Outcome;
use crate::running::run;
use pb_desk::Desk;
use std::process::ExitCode;
use std::rt::Env;
use std::{env, io};

// Runs the program with the words that the system gives.
fn run_given<R: Env + AllocGlobal, D: Desk>(rt: &R, desk: &mut D) -> Outcome
    requires closed { IsClosed (D.state desk.old) }
    ensures answers { AnswersSome (D.state desk.old) (D.state desk.new) result }
    ensures stays { Stays (D.state desk.old) (D.state desk.new) }
    ensures ended { result ≡ Outcome.Done → (slot : ℕ) → (D.state desk.new).view.writing slot ≡ false }
{
    let alloc = rt.alloc();
    let args = match env::args(rt) {
        Ok(args) => args,
        Err(error) if error.kind() == io::ErrorKind::OutOfMemory => return Outcome::NoMemory,
        // Words that are no UTF-8 are none that the program takes.
        Err(_) => return Outcome::Usage,
    };
    let Ok(words) = args.collect::<Vec<String>>(alloc) else {
        return Outcome::NoMemory;
    };
    run(alloc, &words, desk)
}

/// Runs the program over a desk, with the words that the system gives.
pub fn run_program<R: Env + AllocGlobal, D: Desk, E: Diagnostics>(
    rt: &R,
    desk: &mut D,
    diagnostics: &mut E,
) -> ExitCode
    requires closed { IsClosed (D.state desk.old) }
    // The exit status and the line that is reported are those of what some words request, done as it is specified; or of words that
    // request nothing or were not to be had, and then the desk is left alone.
    ensures exits { Exits (D.state desk.old) (D.state desk.new) (E.told diagnostics.old) (E.told diagnostics.new) (exit_status result) }
    // The desk is as steady as it was; and it has kept to what it tells from the start, if it does at the end.
    ensures stays { Stays (D.state desk.old) (D.state desk.new) }
    // If the exit status is 0, all files that were made are closed.
    ensures ended { exit_status result ≡ 0 → (slot : ℕ) → (D.state desk.new).view.writing slot ≡ false }
{
    let outcome = run_given(rt, desk);
    tell(outcome, diagnostics);
    ExitCode::from(outcome.status())
}
