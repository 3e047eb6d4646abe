ghost use Rattle.std.specs.Prelude.{◌≡◌, ◌∷◌, [], map, option_map, IfOk, Some, None, if◌then◌else◌, string_bytes};
ghost use Rattle.clap.specs.Matches.{first_value, found_of};
ghost use Rattle.clap.specs.Simple.{app_of};
ghost use Rattle.command_words.specs.RecordWords.{are_workers, number_of, number_or, record_app, sound_numbers, taken_words, words_in, words_of};
ghost use Rattle.command_words.specs.NamesView.{record_words_of};

use crate::arguments::{Argument, refused, simple_command};
use claims::Workers;
use clap::{ArgMatches, Command};
use std::alloc::{AllocError, Global};

/// What `record` is asked: the names of its files, with that of the turns where there is one, how
/// many workers run the jobs, and the seed of the dice.
#[derive(Clone, Copy)]
pub struct RecordWords<'a> {
    pub program: &'a str,
    pub state: &'a str,
    pub requests: &'a str,
    pub trace: &'a str,
    pub report: &'a str,
    pub turns: Option<&'a str>,
    pub workers: Workers,
    pub seed: u64,
}

/// What these words say behind `record`, where they are its words.
pub(crate) fn taken_words(
    alloc: Global,
    words: &[String],
) -> Result<Option<RecordWords<'_>>, AllocError>
    ensures { let taken = taken_words (map string_bytes words.now) in
        IfOk result (λ found. option_map record_words_of found ≡ taken) }
{
    match record_command(alloc)?.try_get_matches_from(words) {
        Ok(matches) => found_words(alloc, &matches),
        Err(error) => refused(error),
    }
}

/// What was found of the words, where their numbers are numbers.
fn found_words<'a>(
    alloc: Global,
    matches: &ArgMatches<'a>,
) -> Result<Option<RecordWords<'a>>, AllocError>
    ensures { let value = first_value (found_of matches.now) in
        IfOk result (λ found. option_map record_words_of found ≡ words_in value) }
{
    let workers = number_or(alloc, 1, matches.get_str("workers"))?;
    let seed = number_or(alloc, 0, matches.get_str("seed"))?;
    Ok(sound_words(matches, workers, seed))
}

/// The same with these numbers, where they are in their range.
fn sound_words<'a>(
    matches: &ArgMatches<'a>,
    workers: Option<u64>,
    seed: Option<u64>,
) -> Option<RecordWords<'a>>
    ensures { let value = first_value (found_of matches.now) in
        option_map record_words_of result ≡ words_of value workers seed }
{
    let program = matches.get_str("program")?;
    let state = matches.get_str("state")?;
    let requests = matches.get_str("requests")?;
    let trace = matches.get_str("trace")?;
    let report = matches.get_str("report")?;
    let (workers, seed) = sound_numbers(trace, report, workers, seed)?;
    Some(RecordWords {
        program,
        state,
        requests,
        trace,
        report,
        turns: matches.get_str("turns"),
        workers,
        seed,
    })
}

/// The numbers, where they are in their range and these names are of two files.
fn sound_numbers(
    trace: &str,
    report: &str,
    workers: Option<u64>,
    seed: Option<u64>,
) -> Option<(Workers, u64)>
    ensures { result ≡ sound_numbers trace.now report.now workers seed }
{
    let workers = workers_of(workers?)?;
    let seed = seed?;
    if trace == report {
        None
    } else {
        Some((workers, seed))
    }
}

/// This number of workers, where there may be so many.
pub(crate) fn workers_of(count: u64) -> Option<Workers>
    ensures { result ≡ (if are_workers count then Some count else None) }
{
    Workers::new(u32::try_from(count).ok()?)
}

/// The number of an option, and this one where it isn't given.
pub(crate) fn number_or(
    alloc: Global,
    other: u64,
    text: Option<&str>,
) -> Result<Option<u64>, AllocError>
    ensures { let number = number_or other (option_map (λ t. t.now) text.entry) in
        IfOk result (λ found. found ≡ number) }
{
    match text {
        None => Ok(Some(other)),
        Some(text) => number_of(alloc, text),
    }
}

/// The number of which the text is the decimal form, without a sign or needless zeros.
fn number_of(alloc: Global, text: &str) -> Result<Option<u64>, AllocError>
    ensures { IfOk result (λ number. number ≡ number_of text.now) }
{
    match text.parse::<u64>() {
        Ok(number) => {
            let form = format!(in alloc; "{number}")?;
            Ok(if form.as_str() == text {
                Some(number)
            } else {
                None
            })
        }
        Err(_) => Ok(None),
    }
}

/// The words behind `record`.
fn record_command<'a>(alloc: Global) -> Result<Command<'a>, AllocError>
    ensures { IfOk result (λ command. app_of command ≡ record_app) }
{
    simple_command(
        alloc,
        "record",
        &[
            Argument::Required("program"),
            Argument::Required("state"),
            Argument::Required("requests"),
            Argument::Required("trace"),
            Argument::Required("report"),
            Argument::Optional("workers"),
            Argument::Optional("turns"),
            Argument::Optional("seed"),
        ],
    )
}
