ghost use Rattle.std.specs.Prelude.{◌≡◌, ◌∷◌, [], map, option_map, IfOk, string_bytes};
ghost use Rattle.clap.specs.Matches.{first_value, found_of};
ghost use Rattle.clap.specs.Simple.{app_of};
ghost use Rattle.command_words.specs.AuditWords.{audit_app, taken_words, words_in, words_of};
ghost use Rattle.command_words.specs.NamesView.{audit_words_of};

use crate::arguments::{Argument, refused, simple_command};
use crate::record_words::{number_or, workers_of};
use claims::Workers;
use clap::{ArgMatches, Command};
use std::alloc::{AllocError, Global};

/// What `audit` is asked: the names of its inputs and of the schedule that it writes, and how many
/// workers run the groups.
#[derive(Clone, Copy)]
pub struct AuditWords<'a> {
    pub program: &'a str,
    pub state: &'a str,
    pub trace: &'a str,
    pub report: &'a str,
    pub schedule: &'a str,
    pub workers: Workers,
}

/// What these words say behind `audit`, where they are its words.
pub(crate) fn taken_words(
    alloc: Global,
    words: &[String],
) -> Result<Option<AuditWords<'_>>, AllocError>
    ensures { let taken = taken_words (map string_bytes words.now) in
        IfOk result (λ found. option_map audit_words_of found ≡ taken) }
{
    match audit_command(alloc)?.try_get_matches_from(words) {
        Ok(matches) => found_words(alloc, &matches),
        Err(error) => refused(error),
    }
}

/// What was found of the words, where the number of workers is one.
fn found_words<'a>(
    alloc: Global,
    matches: &ArgMatches<'a>,
) -> Result<Option<AuditWords<'a>>, AllocError>
    ensures { let value = first_value (found_of matches.now) in
        IfOk result (λ found. option_map audit_words_of found ≡ words_in value) }
{
    let workers = number_or(alloc, 1, matches.get_str("workers"))?;
    Ok(sound_words(matches, workers))
}

/// The same with this number, where there may be so many workers.
fn sound_words<'a>(matches: &ArgMatches<'a>, workers: Option<u64>) -> Option<AuditWords<'a>>
    ensures { let value = first_value (found_of matches.now) in
        option_map audit_words_of result ≡ words_of value workers }
{
    Some(AuditWords {
        program: matches.get_str("program")?,
        state: matches.get_str("state")?,
        trace: matches.get_str("trace")?,
        report: matches.get_str("report")?,
        schedule: matches.get_str("schedule")?,
        workers: workers_of(workers?)?,
    })
}

/// The words behind `audit`.
fn audit_command<'a>(alloc: Global) -> Result<Command<'a>, AllocError>
    ensures { IfOk result (λ command. app_of command ≡ audit_app) }
{
    simple_command(
        alloc,
        "audit",
        &[
            Argument::Required("program"),
            Argument::Required("state"),
            Argument::Required("trace"),
            Argument::Required("report"),
            Argument::Required("schedule"),
            Argument::Optional("workers"),
        ],
    )
}
