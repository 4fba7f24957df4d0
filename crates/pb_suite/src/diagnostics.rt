//! The place for reports of why not all was done.
ghost use Rattle.std.specs.Prelude.{ℕ, List, ◌++◌, Option, IfSome, codes};
ghost use Rattle.pb_suite.specs.FaultLines.{fault_line, IsToldNext};

use crate::outcome::Outcome;
use std::fmt::Display;

/// A place for the lines that report what went wrong: standard error. The program does not learn if a line gets anywhere.
pub trait Diagnostics {
    /// The bytes that were written, if that is known.
    ghost told: { Self → Option (List ℕ) };

    /// Writes a line, which comes without its end.
    fn line<L: Display + Drop>(&mut self, line: L)
        ensures { IfSome (L.output line) (λ words. IsToldNext (words ++ codes "\n") (told self.old) (told self.new)) };
}

/// Writes the line that reports how a run ended, unless it ended with `Done`.
pub fn tell<E: Diagnostics>(outcome: Outcome, diagnostics: &mut E)
    ensures { IsToldNext (fault_line outcome) (E.told diagnostics.old) (E.told diagnostics.new) }
{
    if !matches!(outcome, Outcome::Done) {
        diagnostics.line(outcome);
    }
}
