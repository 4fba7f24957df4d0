// Arguments of commands, and the words that they were given.
ghost use Rattle.std.specs.Prelude.{◌≡◌, false, map, option_map};
ghost use Rattle.clap.specs.Words.{all_of, first_of, found_of, rows_of, rule_of};
ghost use Rattle.pb_words.specs.inner.Commands.{rule_for};

use clap::{Arg, ArgAction, ArgMatches};
use std::alloc::Global;

/// An argument of a command, with the id under which it is read back.
pub enum Argument<'a> {
    /// A name, which has to be given.
    Name(&'a str),
    /// A name, which may be given.
    OptionalName(&'a str),
    /// Any number of words, none included.
    Words(&'a str),
    /// An option, which is written `--id value` or `--id=value` and may be given once.
    Valued(&'a str),
    /// An option without a value, which is written `--id` and may be given once.
    Flag(&'a str),
}

/// Returns the argument in clap's own form.
pub fn arg_for<'a>(alloc: Global, argument: &Argument<'a>) -> Arg<'a>
    ensures rule { rule_of result ≡ rule_for argument.now }
    ensures local { result.global ≡ false }
{
    match *argument {
        Argument::Name(id) => Arg::new(alloc, id).required(true),
        Argument::OptionalName(id) => Arg::new(alloc, id),
        Argument::Words(id) => Arg::new(alloc, id).action(ArgAction::Append),
        Argument::Valued(id) => Arg::new(alloc, id).long(id),
        Argument::Flag(id) => Arg::new(alloc, id).action(ArgAction::SetTrue).long(id),
    }
}

/// Returns the word that an argument was given, if it was given one.
pub fn word_of<'a>(given: &ArgMatches<'a>, id: &str) -> Option<&'a str>
    ensures { option_map (λ word. word.now) result ≡ first_of id.now (rows_of (found_of given.now)) }
{
    given.get_str(id)
}

/// Returns the words that an argument was given, if it was given any.
pub fn words_of<'m, 'a>(given: &'m ArgMatches<'a>, id: &str) -> Option<&'m [&'a str]>
    ensures { option_map (λ words. map (λ word. word.now) words.now) result ≡ all_of id.now (rows_of (found_of given.now)) }
{
    given.get_raw(id)
}
