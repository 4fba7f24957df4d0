// The commands of the program.
ghost use Rattle.std.specs.Prelude.{IfOk, codes};
ghost use Rattle.clap.specs.Words.{App, with_subcommand};
ghost use Rattle.pb_words.specs.Rules.{bare_program, IsCommand};
ghost use Rattle.pb_words.specs.Parsed.{program_app};

use crate::command::{Syntax, command_of};
use crate::{bench, check, decode, encode, map, optimum, probe, refute, wcnf};
use clap::Command;
use std::alloc::{AllocError, Global};

const COMMANDS: [Syntax<'static>; 9] = [
    encode::COMMAND,
    check::COMMAND,
    decode::COMMAND,
    probe::COMMAND,
    bench::COMMAND,
    refute::COMMAND,
    map::COMMAND,
    wcnf::COMMAND,
    optimum::COMMAND,
];

// Makes the program without its commands: one has to be given, and there is no help or version.
fn bare<'a>(alloc: Global) -> Command<'a>
    ensures { IsCommand (bare_program (codes "pbcnf")) result }
{
    Command::new(alloc, "pbcnf")
        .disable_help_flag(true)
        .disable_help_subcommand(true)
        .disable_version_flag(true)
        .subcommand_required(true)
}

// Adds a command to the program, if there was memory for both.
fn with_command<'a>(
    program: Command<'a>,
    command: Result<Command<'a>, AllocError>,
) -> Result<Command<'a>, AllocError>
    ensures { (app sub : App) → IsCommand app program.entry → IfOk command.entry (IsCommand sub) → IfOk result (IsCommand (with_subcommand app sub.top)) }
{
    let command = command?;
    program.subcommand(command)
}

/// Makes the program with its commands, in this order.
pub fn program<'a>(alloc: Global) -> Result<Command<'a>, AllocError>
    ensures { IfOk result (IsCommand program_app) }
{
    let mut program = bare(alloc);
    for syntax in &COMMANDS {
        program = with_command(program, command_of(alloc, syntax))?;
    }
    Ok(program)
}
