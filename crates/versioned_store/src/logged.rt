ghost use Rattle.std.specs.Prelude.{◌≡◌, ◌<◌, ℤ, length, IfOk, Some};
ghost use Rattle.std.specs.Option.{option_copied};
ghost use Rattle.basis.specs.Lists.{nth};
ghost use Rattle.script_tree.specs.Objects.{acted, reading, none};
ghost use Rattle.versioned_store.specs.Logged.{FitsLog, logged, IsAnswer, IsCellBefore};
ghost use Rattle.versioned_store.specs.Entries.{IsKept};
ghost use Rattle.versioned_store.specs.Sources.{IsSource};

use crate::versions::{Versions, versions_of};
use object_set::ObjectSet;
use period::report::{Log, LogEntry};
use script_tree::operation::{Act, Choice};
use script_tree::value::Value;
use std::alloc::{AllocError, Global};
use std::marker::Model;
use versioned_cells::{register_answer, store_answer};

/// An object by its log: what it held before each entry.
#[derive(Drop)]
pub struct VersionedLog<'a> {
    start: &'a ObjectSet,
    log: &'a Log,
    versions: Versions,
}

impl<'a> Model for VersionedLog<'a> {
    ghost use Rattle.versioned_store.specs.Logged.{Logged, coded_logged};

    ghost Value = { Logged };

    ghost coded = { coded_logged };

    ghost use Rattle.versioned_store.specs.LoggedView.{logged_in, IsTold};

    ghost view = { logged_in };

    ghost invariant = { IsTold };
}

impl<'a> VersionedLog<'a> {
    /// The object over time, by the start of all objects and its log.
    pub fn build(
        alloc: Global,
        start: &'a ObjectSet,
        log: &'a Log,
    ) -> Result<VersionedLog<'a>, AllocError>
        requires { FitsLog start.now log.now }
        ensures { IfOk result (λ versioned. versioned ≡ logged start.now log.now) }
    {
        let versions = versions_of(alloc, start, log)?;
        Ok(VersionedLog {
            start,
            log,
            versions,
        })
    }

    /// How many entries the log has.
    pub fn len(&self) -> usize
        ensures { result ≡ length self.now.log.entries }
    {
        self.log.entries.len()
    }

    /// The entry at a position.
    fn entry(&self, position: u32) -> &LogEntry
        requires { position < length self.now.log.entries }
        ensures { nth self.now.log.entries position ≡ Some result.now }
    {
        &self.log.entries.as_slice()[position as usize]
    }

    /// The answer of an entry on what the entries before it leave of the object.
    pub fn answer_at(&self, position: u32) -> Result<Value, AllocError>
        requires { position < length self.now.log.entries }
        ensures { IfOk result (IsAnswer self.now position) }
    {
        let entry = self.entry(position);
        match &self.versions {
            Versions::Register(history) => register_answer(history, position, &entry.act),
            Versions::Store(histories) => store_answer(histories, position, &entry.act),
            Versions::Tables(tables) => tables.answer_at(self.log.entries.as_slice(), position),
            Versions::Clock => Ok(time_read(&entry.act, entry.choice)),
            Versions::Dice => Ok(number_rolled(&entry.act, entry.choice)),
        }
    }

    /// What the cell of an entry of a register or of a store held before it. It takes no memory.
    pub fn cell_at(&self, position: u32) -> Option<&Value>
        requires { position < length self.now.log.entries }
        ensures { IsCellBefore self.now position (option_copied result) }
    {
        let entry = self.entry(position);
        match &self.versions {
            Versions::Register(history) => history.at(position),
            Versions::Store(histories) => match &entry.act {
                Act::Get(key) | Act::Put(key, _) | Act::Remove(key) => histories.at(position, key),
                Act::Read | Act::Write(_) | Act::Transact(_) | Act::Now | Act::Roll(_) => None,
            },
            Versions::Tables(_) | Versions::Clock | Versions::Dice => None,
        }
    }

    /// The source of an entry: of a transaction of selects alone the first entry of the same act
    /// since the tables last changed, of any other entry itself. It takes no memory.
    pub fn select_source(&self, position: u32) -> u32
        requires { position < length self.now.log.entries }
        ensures { IsSource self.now.log.entries position result }
    {
        match self.versions.as_tables() {
            Some(tables) => tables.source(position),
            None => position,
        }
    }

    /// The answer of an entry where it is kept: that of each source of selects is, from `build` on.
    pub fn kept_answer(&self, position: u32) -> Option<&Value>
        requires { position < length self.now.log.entries }
        ensures { IsKept self.now position (option_copied result) }
    {
        match self.versions.as_tables() {
            Some(tables) => tables.kept_answer(position),
            None => None,
        }
    }
}

/// The answer of an act on a clock.
#[tactic(auto, unfolding(script_tree::specs::Objects::acted))]
fn time_read(act: &Act, choice: Choice) -> Value
    ensures { (last : ℤ) → result ≡ (acted act.now choice (reading last)).1 }
{
    match (act, choice) {
        (Act::Now, Choice::Number(time)) => Value::number(time),
        (Act::Now, Choice::Nothing) => Value::null(),
        (Act::Read, _) => Value::null(),
        (Act::Write(_), _) => Value::null(),
        (Act::Get(_), _) => Value::null(),
        (Act::Put(_, _), _) => Value::null(),
        (Act::Remove(_), _) => Value::null(),
        (Act::Transact(_), _) => Value::null(),
        (Act::Roll(_), Choice::Nothing) => Value::null(),
        (Act::Roll(_), Choice::Number(_)) => Value::null(),
    }
}

/// The answer of an act on dice.
#[tactic(auto, unfolding(script_tree::specs::Objects::acted))]
fn number_rolled(act: &Act, choice: Choice) -> Value
    ensures { result ≡ (acted act.now choice none).1 }
{
    match (act, choice) {
        (Act::Roll(_), Choice::Number(number)) => Value::number(number),
        (Act::Roll(_), Choice::Nothing) => Value::null(),
        (Act::Read, _) => Value::null(),
        (Act::Write(_), _) => Value::null(),
        (Act::Get(_), _) => Value::null(),
        (Act::Put(_, _), _) => Value::null(),
        (Act::Remove(_), _) => Value::null(),
        (Act::Transact(_), _) => Value::null(),
        (Act::Now, _) => Value::null(),
    }
}
