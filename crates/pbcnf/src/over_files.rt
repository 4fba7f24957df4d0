//! A run over the system's files, as the record of the system's calls shows it.
ghost use Rattle.std.specs.Prelude.{◌≡◌, ℕ, false, [], Some, IsSomeAnd, IsTrue};
ghost use Rattle.std.specs.Option.{ForSome};
ghost use Rattle.std.specs.Process.{exit_status};
ghost use Rattle.pb_desk.specs.Desk.{IsClosed};
ghost use Rattle.pb_files.specs.Pieces.{IsByPieces};
ghost use Rattle.pb_files.specs.Replay.{answers_as};
ghost use Rattle.pb_suite.specs.Programs.{Exits};
ghost use Rattle.pbcnf.specs.OverFiles.{ExitsOver};

use pb_desk::Desk;
use pb_files::{Asks, RealDesk, System};
use pb_suite::{Diagnostics, run_program};
use std::process::ExitCode;
use std::rt::Env;

/// Runs the program over the files of a system, with the words that the system gives.
pub fn run_over<R: Env + AllocGlobal, S: System + Drop, E: Diagnostics>(
    rt: &R,
    desk: &mut RealDesk<S>,
    diagnostics: &mut E,
) -> ExitCode
    requires closed { IsClosed (⟦<RealDesk<S> as Desk>⟧.state desk.old) }
    // Over a system that keeps a record of its calls, and was asked nothing before, the record is kept. Let each answer in it be what the
    // files give that are supposed. Then the status and the line are those of what some words ask for, done as it is specified over these
    // files; or of words that ask for nothing or were not to be had, and nothing was made or printed. What was made and printed is what the
    // record says that the system took. If the words are done, what is proved of their command holds of the files: of `encode`, that the
    // CNF which was made encodes the text.
    ensures files { let asked = ⟦<RealDesk<S> as Asks>⟧.asked in (asked desk.old).calls ≡ Some [] → IsSomeAnd (asked desk.new).calls (λ calls. IsTrue (answers_as (asked desk.new).files calls)
        → ExitsOver (asked desk.new).files calls (E.told diagnostics.old) (E.told diagnostics.new) (exit_status result)) }
    // If a record is kept, the calls in it are few. If each read gives all that is left or has room, a text is read at most twice, and once
    // more for each 65,536 bytes. If each write takes its piece whole, a file is written at most once, and once more for each 65,473 bytes.
    ensures pieces { let asked = ⟦<RealDesk<S> as Asks>⟧.asked in ForSome (asked desk.new).calls (IsByPieces (asked desk.new).files) }
    // Over every system, the status and the line are those of what some words ask for, done as it is specified; or of words that ask for
    // nothing or were not to be had, and then the desk is left alone.
    ensures exits { let shown = ⟦<RealDesk<S> as Desk>⟧.state in Exits (shown desk.old) (shown desk.new) (E.told diagnostics.old) (E.told diagnostics.new) (exit_status result) }
    // Where the status is 0, all that was made is closed.
    ensures ended { exit_status result ≡ 0 → (slot : ℕ) → (⟦<RealDesk<S> as Desk>⟧.state desk.new).view.writing slot ≡ false }
{
    run_program(rt, desk, diagnostics)
}
