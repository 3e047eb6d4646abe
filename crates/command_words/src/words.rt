ghost use Rattle.std.specs.Prelude.{◌≡◌, ◌++◌, ◌∷◌, [], drop, map, option_map, IfOk, OnOk, OnErr, string_bytes};
ghost use Rattle.std.specs.Vec.Iter.{into_iter_items};
ghost use Rattle.command_words.specs.Commands.{command, named_command};
ghost use Rattle.command_words.specs.Words.{in_one, is_option, names_in};
ghost use Rattle.command_words.specs.NamesView.{command_of};

use crate::command::Command;
use crate::replay_names::four_names;
use crate::{audit_words, record_words};
use std::alloc::{AllocError, Global};
use std::env::Args;
use std::marker::Model;

/// The words of a command line, without the program's name. Contracts see the bytes of each.
#[derive(Drop)]
pub struct Words {
    alloc: Global,
    items: Vec<String>,
}

impl Model for Words {
    ghost use Rattle.std.specs.Prelude.{List, ℕ, map, string_bytes};

    ghost Value = { List (List ℕ) };

    ghost view = { λ words. map string_bytes words.items.items };
}

impl Words {
    /// No words yet.
    pub fn new(alloc: Global) -> Words
        ensures { result ≡ [] }
    {
        Words {
            alloc,
            items: Vec::new(alloc),
        }
    }

    /// The arguments of a program behind the first, which is its name.
    pub fn behind_name(alloc: Global, args: Args) -> Result<Words, AllocError>
        ensures { IfOk result (λ words. words ≡ map string_bytes (drop 1 (into_iter_items args))) }
    {
        Ok(Words {
            alloc,
            items: args.skip(1).collect(alloc)?,
        })
    }

    /// Takes one word more, behind the others.
    pub fn push(&mut self, word: &str) -> Result<(), AllocError>
        ensures ok { OnOk result (self.new ≡ self.old ++ word.now ∷ []) }
        ensures err { OnErr result (self.new ≡ self.old) }
    {
        let word = String::from_str(self.alloc, word)?;
        self.items.push(word)?;
        Ok(())
    }

    /// The command that the words ask for.
    pub fn command(&self, alloc: Global) -> Result<Command<'_>, AllocError>
        ensures { IfOk result (λ found. command_of found ≡ command self.now) }
    {
        match self.items.as_slice() {
            [] => Ok(Command::Usage),
            [name, words @ ..] => named_command(alloc, name.as_str(), words),
        }
    }
}

/// The command of this name, by the words behind it.
fn named_command<'a>(
    alloc: Global,
    name: &str,
    words: &'a [String],
) -> Result<Command<'a>, AllocError>
    ensures { let command = named_command name.now (map string_bytes words.now) in
        IfOk result (λ found. command_of found ≡ command) }
{
    if name == "check" {
        return Ok(match one_name(words) {
            Some(name) => Command::Check(name),
            None => Command::Usage,
        });
    }
    if name == "replay" {
        return match four_names(alloc, words) {
            Ok(Some(names)) => Ok(Command::Replay(names)),
            Ok(None) => Ok(Command::Usage),
            Err(error) => Err(error),
        };
    }
    if name == "record" {
        return match record_words::taken_words(alloc, words) {
            Ok(Some(words)) => Ok(Command::Record(words)),
            Ok(None) => Ok(Command::Usage),
            Err(error) => Err(error),
        };
    }
    if name == "audit" {
        return match audit_words::taken_words(alloc, words) {
            Ok(Some(words)) => Ok(Command::Audit(words)),
            Ok(None) => Ok(Command::Usage),
            Err(error) => Err(error),
        };
    }
    Ok(Command::Usage)
}

/// Whether a word stands for an option: a dash, and more behind it.
fn is_option(word: &str) -> bool
    ensures { result ≡ is_option word.now }
{
    match word.as_bytes() {
        [first, _, ..] => *first == b'-',
        _ => false,
    }
}

/// The name, where these words are one.
fn one_name(words: &[String]) -> Option<&str>
    ensures { let name = in_one (names_in (map string_bytes words.now)) in
        option_map (λ found. found.now) result ≡ name }
{
    match words {
        [] => None,
        [name] => plain_name(name.as_str()),
        [first, second] => name_of_two(first.as_str(), second.as_str()),
        [_, _, _, ..] => None,
    }
}

/// The word, where it is a name.
fn plain_name(word: &str) -> Option<&str>
    ensures { option_map (λ found. found.now) result ≡ in_one (names_in (word.now ∷ [])) }
{
    if word == "--" || is_option(word) {
        None
    } else {
        Some(word)
    }
}

/// The name, where one of these words is it and the other is `--`.
fn name_of_two<'a>(first: &'a str, second: &'a str) -> Option<&'a str>
    ensures { let name = in_one (names_in (first.now ∷ second.now ∷ [])) in
        option_map (λ found. found.now) result ≡ name }
{
    if first == "--" {
        return Some(second);
    }
    if second == "--" && !is_option(first) {
        return Some(first);
    }
    None
}
