ghost use Rattle.std.specs.Prelude.{◌≡◌, ◌↔◌, [], IfOk, OnOk, IsTrue, map};
ghost use Rattle.std.specs.Option.{option_copied};
ghost use Rattle.versioned_store.specs.Logged.{FitLogs, logged};
ghost use Rattle.versioned_store.specs.Entries.{HasEntry, IsAnswerIn, IsCellIn, IsSourceIn, IsKeptIn};

use crate::logged::VersionedLog;
use object_set::ObjectSet;
use period::report::Log;
use script_tree::value::Value;
use std::alloc::{AllocError, Global};
use std::marker::Model;

/// All objects of some logs: what each held before each entry of its log.
#[derive(Drop)]
pub struct VersionedStore<'a> {
    logs: Vec<VersionedLog<'a>>,
}

impl<'a> Model for VersionedStore<'a> {
    ghost use Rattle.std.specs.Prelude.{List};
    ghost use Rattle.std.specs.Coded.{coded_list};
    ghost use Rattle.versioned_store.specs.Logged.{Logged, coded_logged};

    ghost Value = { List Logged };

    ghost coded = { coded_list coded_logged };

    ghost use Rattle.versioned_store.specs.StoreView.{logs_in};

    ghost view = { logs_in };
}

impl<'a> VersionedStore<'a> {
    /// The objects over time, by their start and their logs.
    pub fn build(
        alloc: Global,
        start: &'a ObjectSet,
        logs: &'a [Log],
    ) -> Result<VersionedStore<'a>, AllocError>
        requires { FitLogs start.now logs.now }
        ensures { IfOk result (λ store. store ≡ map (logged start.now) logs.now) }
    {
        let mut versioned = Vec::with_capacity(alloc, logs.len())?;
        match add_logs(alloc, &mut versioned, start, logs) {
            Ok(()) => Ok(VersionedStore { logs: versioned }),
            Err(error) => {
                drop(versioned);
                Err(error)
            }
        }
    }

    /// Whether there is such an entry.
    pub fn has_entry(&self, log: u32, position: u32) -> bool
        ensures { IsTrue result ↔ HasEntry self.now log position }
    {
        match self.logs.get(log as usize) {
            Some(versioned) => (position as usize) < versioned.len(),
            None => false,
        }
    }

    /// The answer of an entry on what the entries before it leave of its object.
    pub fn answer_at(&self, log: u32, position: u32) -> Result<Value, AllocError>
        requires { HasEntry self.now log position }
        ensures { IfOk result (IsAnswerIn self.now log position) }
    {
        self.logs[log as usize].answer_at(position)
    }

    /// What the cell of an entry of a register or of a store held before it. It takes no memory.
    pub fn cell_at(&self, log: u32, position: u32) -> Option<&Value>
        requires { HasEntry self.now log position }
        ensures { IsCellIn self.now log position (option_copied result) }
    {
        self.logs[log as usize].cell_at(position)
    }

    /// The source of an entry: of a transaction of selects alone the first entry of the same act
    /// since the tables last changed, of any other entry itself. It takes no memory.
    pub fn select_source(&self, log: u32, position: u32) -> u32
        requires { HasEntry self.now log position }
        ensures { IsSourceIn self.now log position result }
    {
        self.logs[log as usize].select_source(position)
    }

    /// The answer of an entry where it is kept: that of each source of selects is, from `build`
    /// on.
    pub fn kept_answer(&self, log: u32, position: u32) -> Option<&Value>
        requires { HasEntry self.now log position }
        ensures { IsKeptIn self.now log position (option_copied result) }
    {
        self.logs[log as usize].kept_answer(position)
    }
}

/// Puts the object of each log over time into a list that has none.
fn add_logs<'a>(
    alloc: Global,
    versioned: &mut Vec<VersionedLog<'a>>,
    start: &'a ObjectSet,
    logs: &'a [Log],
) -> Result<(), AllocError>
    requires fit { FitLogs start.now logs.now }
    requires empty { versioned.old.items ≡ [] }
    ensures { OnOk result (versioned.new.items ≡ map (logged start.now) logs.now) }
{
    for log in logs {
        versioned.push(VersionedLog::build(alloc, start, log)?)?;
    }
    Ok(())
}
