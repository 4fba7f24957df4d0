// Commands. The program lists them as rows of a table, and few functions make them from it: one that owns a command of
// clap takes long to prove.
ghost use Rattle.std.specs.Prelude.{IfOk};
ghost use Rattle.clap.specs.Words.{App};
ghost use Rattle.pb_words.specs.inner.Commands.{app_for, with_arguments};
ghost use Rattle.pb_words.specs.Rules.{IsCommand};

use crate::argument::{Argument, arg_for};
use clap::Command;
use std::alloc::{AllocError, Global};

/// The name of a command, and its arguments, group by group.
pub struct Syntax<'a> {
    pub name: &'a str,
    pub groups: &'a [&'a [Argument<'a>]],
}

// Adds arguments to a command, in this order.
fn with_arguments<'a>(
    alloc: Global,
    mut command: Command<'a>,
    arguments: &[Argument<'a>],
) -> Result<Command<'a>, AllocError>
    ensures { (app : App) → IsCommand app command.entry → IfOk result (IsCommand (with_arguments app arguments.now)) }
{
    for argument in arguments {
        command = command.arg(arg_for(alloc, argument))?;
    }
    Ok(command)
}

/// Returns the command in clap's own form.
pub fn command_of<'a>(alloc: Global, syntax: &Syntax<'a>) -> Result<Command<'a>, AllocError>
    ensures { IfOk result (IsCommand (app_for syntax.now)) }
{
    let mut command = Command::new(alloc, syntax.name);
    for group in syntax.groups {
        command = with_arguments(alloc, command, group)?;
    }
    Ok(command)
}
