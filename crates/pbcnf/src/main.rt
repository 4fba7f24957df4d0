//! The program: a run over the system's files.
#![tactic(auto)]

mod over_files;

use over_files::run_over;
use pb_files::{Host, RealDesk};
use pb_suite::Diagnostics;
use std::fmt::Display;
use std::process::ExitCode;

// Standard error. The system does not say what it took.
#[derive(Drop)]
struct StandardError<'a, R: Eprint> {
    system: &'a R,
}

impl<R: Eprint> Diagnostics for StandardError<'_, R> {
    ghost use Rattle.std.specs.Prelude.{None};

    ghost told = { λ _. None };

    // Prints the line with an LF. A closed standard error loses it, and the exit status still reports the outcome.
    fn line<L: Display + Drop>(&mut self, line: L) {
        // If standard error is closed, the exit status still reports the outcome.
        let _ = self.system.eprintln(line);
    }
}

// Runs the program over the system's files, with the words that the system gives.
fn main(rt: HostRuntime) -> ExitCode {
    // Before all else, since it takes the numbers of standard streams that are closed.
    let mut desk = RealDesk::new(Host::new(&rt));
    run_over(&rt, &mut desk, &mut StandardError { system: &rt })
}
