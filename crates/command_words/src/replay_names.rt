ghost use Rattle.std.specs.Prelude.{◌≡◌, map, option_map, IfOk, string_bytes};
ghost use Rattle.clap.specs.Matches.{found_of};
ghost use Rattle.clap.specs.Simple.{app_of};
ghost use Rattle.command_words.specs.Words.{in_four, names_in};
ghost use Rattle.command_words.specs.WordsApp.{found_names, replay_app};
ghost use Rattle.command_words.specs.NamesView.{names_of};

use crate::arguments::{Argument, refused, simple_command};
use clap::{ArgMatches, Command};
use std::alloc::{AllocError, Global};

/// The names of replay's inputs.
#[derive(Clone, Copy)]
pub struct ReplayNames<'a> {
    pub program: &'a str,
    pub state: &'a str,
    pub trace: &'a str,
    pub schedule: &'a str,
}

/// The names, where these words are four of them.
pub(crate) fn four_names(
    alloc: Global,
    words: &[String],
) -> Result<Option<ReplayNames<'_>>, AllocError>
    ensures { let names = in_four (names_in (map string_bytes words.now)) in
        IfOk result (λ found. option_map names_of found ≡ names) }
{
    match replay_command(alloc)?.try_get_matches_from(words) {
        Ok(matches) => Ok(found_names(&matches)),
        Err(error) => refused(error),
    }
}

fn found_names<'a>(matches: &ArgMatches<'a>) -> Option<ReplayNames<'a>>
    ensures { option_map names_of result ≡ found_names (found_of matches.now) }
{
    Some(ReplayNames {
        program: matches.get_str("program")?,
        state: matches.get_str("state")?,
        trace: matches.get_str("trace")?,
        schedule: matches.get_str("schedule")?,
    })
}

/// The words behind `replay`.
fn replay_command<'a>(alloc: Global) -> Result<Command<'a>, AllocError>
    ensures { IfOk result (λ command. app_of command ≡ replay_app) }
{
    simple_command(
        alloc,
        "replay",
        &[
            Argument::Required("program"),
            Argument::Required("state"),
            Argument::Required("trace"),
            Argument::Required("schedule"),
        ],
    )
}
