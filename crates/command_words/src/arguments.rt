//! Simple commands: names that have to be there, and options that take a value.
ghost use Rattle.std.specs.Prelude.{◌≡◌, ◌≢◌, IfOk, None, false, fold};
ghost use Rattle.clap.specs.Simple.{app_of};
ghost use Rattle.clap.specs.Values.{kind_of};
ghost use Rattle.clap.specs.Walk.{rule_of};
ghost use Rattle.clap.specs.declared.error.kind.ErrorKind.TheVariants.{OutOfMemory};
ghost use Rattle.command_words.specs.WordsApp.{argument_rule, bare_app, with_argument};

use clap::error::{Error, ErrorKind};
use clap::{Arg, Command};
use std::alloc::{AllocError, Global};

/// A word that a simple command reads: one that has to be there, or the value of an option.
#[derive(Clone, Copy)]
pub(crate) enum Argument<'a> {
    Required(&'a str),
    Optional(&'a str),
}

/// The command whose words are these, in this order.
pub(crate) fn simple_command<'a>(
    alloc: Global,
    name: &'a str,
    arguments: &[Argument<'a>],
) -> Result<Command<'a>, AllocError>
    ensures { let app = fold with_argument (bare_app name.now) arguments.now in
        IfOk result (λ command. app_of command ≡ app) }
{
    let mut command = Command::new(alloc, name).no_binary_name(true);
    for argument in arguments {
        command = command.arg(argument_of(alloc, *argument))?;
    }
    Ok(command)
}

/// How the command-line library reads such a word.
fn argument_of<'a>(alloc: Global, argument: Argument<'a>) -> Arg<'a>
    ensures rule { rule_of result ≡ argument_rule argument.entry }
    ensures local { result.global ≡ false }
{
    match argument {
        Argument::Required(name) => Arg::new(alloc, name).required(true),
        Argument::Optional(name) => Arg::new(alloc, name).long(name),
    }
}

/// What is said of words that the library refuses: nothing, unless it is memory that is wanting.
pub(crate) fn refused<T>(error: Error) -> Result<Option<T>, AllocError>
    ensures { IfOk result (λ found. (found ≡ None) × (kind_of error ≢ OutOfMemory)) }
{
    match error.kind() {
        ErrorKind::OutOfMemory => Err(AllocError),
        _ => Ok(None),
    }
}
