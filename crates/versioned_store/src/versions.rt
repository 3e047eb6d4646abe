ghost use Rattle.std.specs.Prelude.{◌≡◌, IfOk};
ghost use Rattle.std.specs.Option.{option_copied};
ghost use Rattle.object_cells.specs.Stores.{held_in};
ghost use Rattle.versioned_cells.specs.Logs.{TellsStore};
ghost use Rattle.versioned_store.specs.Logged.{FitsLog, logged};
ghost use Rattle.versioned_store.specs.Tellings.{Tells, tables_of};

use crate::selects::SelectedTables;
use object_cells::Store;
use object_set::ObjectSet;
use period::report::{Log, LogEntry};
use script_tree::operation::Object;
use script_tree::text::Text;
use script_tree::value::Value;
use std::alloc::{AllocError, Global};
use versioned_cells::{Histories, History, register_history, store_histories};

/// What an object held over time. What a clock and dice answer is told by their entries.
#[derive(Drop)]
pub enum Versions {
    Register(History<Value>),
    Store(Histories<Value>),
    Tables(SelectedTables),
    Clock,
    Dice,
}

impl Versions {
    /// The tables over time, where it is they.
    pub fn as_tables(&self) -> Option<&SelectedTables>
        ensures { option_copied result ≡ tables_of self.now }
    {
        match self {
            Versions::Tables(tables) => Some(tables),
            Versions::Register(_) | Versions::Store(_) | Versions::Clock | Versions::Dice => None,
        }
    }
}

/// The versions of an object, by its start and its log.
pub fn versions_of(alloc: Global, start: &ObjectSet, log: &Log) -> Result<Versions, AllocError>
    requires { FitsLog start.now log.now }
    ensures { IfOk result (Tells (logged start.now log.now)) }
{
    let entries = log.entries.as_slice();
    match &log.object {
        Object::Register(name) => {
            let history = register_history(alloc, start.registers(), name, entries)?;
            Ok(Versions::Register(history))
        }
        Object::Store(name) => Ok(Versions::Store(store_over_time(alloc, start, name, entries)?)),
        Object::Tables => {
            let tables = SelectedTables::build(alloc, start.tables(), entries)?;
            Ok(Versions::Tables(tables))
        }
        Object::Clock => Ok(Versions::Clock),
        Object::Dice => Ok(Versions::Dice),
    }
}

/// What a store held over time; one that isn't there held nothing.
fn store_over_time(
    alloc: Global,
    start: &ObjectSet,
    name: &Text,
    entries: &[LogEntry],
) -> Result<Histories<Value>, AllocError>
    ensures { IfOk result (TellsStore entries.now (held_in start.now.stores name.now)) }
{
    match start.store(name) {
        Some(store) => store_histories(alloc, store, entries),
        None => store_histories(alloc, &Store::new(alloc), entries),
    }
}
