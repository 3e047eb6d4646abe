ghost use Rattle.std.specs.Prelude.{◌≡◌, ◌<◌, ℕ, [], IfOk, OnOk, IfSome, Some, length, slice_index_or};
ghost use Rattle.std.specs.Option.{is_some, option_copied};
ghost use Rattle.basis.specs.Lists.{nth};
ghost use Rattle.script_fit.specs.FitsOperation.{FitsTables};
ghost use Rattle.object_tables.specs.TableSets.{TableSet};
ghost use Rattle.versioned_tables.specs.OverTime.{FitEntries, IsAnswerThen};
ghost use Rattle.versioned_tables.specs.Standing.{Stands};
ghost use Rattle.versioned_store.specs.Tables.{AreKept, TellsSelects, IsToldSelects, IsTablesAnswer, is_own};

use crate::acts::selects_alone;
use crate::sources::sources_of;
use object_tables::tables::Tables;
use period::report::LogEntry;
use script_tree::value::Value;
use std::alloc::{AllocError, Global};
use versioned_cells::next_position;
use versioned_tables::VersionedTables;

/// Tables over time, with the source of each entry of their log, and the answers of the selects that
/// are sources.
#[derive(Drop)]
pub struct SelectedTables {
    tables: VersionedTables,
    sources: Vec<u32>,
    kept: Vec<Option<Value>>,
}

impl SelectedTables {
    /// The tables over time, by their start and their log.
    pub fn build(
        alloc: Global,
        start: &Tables,
        entries: &[LogEntry],
    ) -> Result<SelectedTables, AllocError>
        requires { FitEntries start.now.widths entries.now }
        ensures { IfOk result (TellsSelects entries.now start.now) }
    {
        let tables = VersionedTables::build(alloc, start, entries)?;
        let sources = sources_of(alloc, entries)?;
        let kept = kept_answers(alloc, &tables, sources.as_slice(), entries)?;
        Ok(SelectedTables {
            tables,
            sources,
            kept,
        })
    }

    /// The source of an entry.
    pub fn source(&self, position: u32) -> u32
        requires { position < length self.now.sources.items }
        ensures { (d : ℕ) → result ≡ slice_index_or self.now.sources.items position d }
    {
        self.sources[position as usize]
    }

    /// The answer that is kept of an entry.
    pub fn kept_answer(&self, position: u32) -> Option<&Value>
        requires { position < length self.now.kept.items }
        ensures { nth self.now.kept.items position ≡ Some (option_copied result) }
    {
        self.kept[position as usize].as_ref()
    }

    /// The answer of an entry: where its source keeps one, that.
    pub fn answer_at(&self, entries: &[LogEntry], position: u32) -> Result<Value, AllocError>
        requires told { IsToldSelects entries.now self.now }
        requires there { position < length entries.now }
        ensures { (start : TableSet) → TellsSelects entries.now start self.now →
            IfOk result (IsTablesAnswer entries.now start.tables position) }
    {
        match self.kept_answer(self.source(position)) {
            Some(answer) => copied(answer),
            None => self
                .tables
                .answer_at(position, &entries[position as usize].act),
        }
    }
}

fn copied(value: &Value) -> Result<Value, AllocError>
    ensures { IfOk result (λ copy. copy ≡ value.now) }
{
    value.clone()
}

/// The answers of the transactions of selects alone that are their own sources.
fn kept_answers(
    alloc: Global,
    tables: &VersionedTables,
    sources: &[u32],
    entries: &[LogEntry],
) -> Result<Vec<Option<Value>>, AllocError>
    requires fits { FitEntries tables.now.widths entries.now }
    requires stands { (p : ℕ) → Stands tables.now.widths p tables.now.rows }
    requires count { length sources.now ≡ length entries.now }
    ensures { IfOk result (λ kept. AreKept entries.now tables.now sources.now kept.items) }
{
    let mut kept = Vec::with_capacity(alloc, entries.len())?;
    match add_kept(&mut kept, tables, sources, entries) {
        Ok(()) => Ok(kept),
        Err(error) => {
            drop(kept);
            Err(error)
        }
    }
}

/// Puts these answers into a list that has none.
fn add_kept(
    kept: &mut Vec<Option<Value>>,
    tables: &VersionedTables,
    sources: &[u32],
    entries: &[LogEntry],
) -> Result<(), AllocError>
    requires fits { FitEntries tables.now.widths entries.now }
    requires stands { (p : ℕ) → Stands tables.now.widths p tables.now.rows }
    requires count { length sources.now ≡ length entries.now }
    requires empty { kept.old.items ≡ [] }
    ensures { OnOk result (AreKept entries.now tables.now sources.now kept.new.items) }
{
    let mut position = 0u32;
    for entry in entries {
        kept.push(kept_answer(tables, sources[position as usize], position, entry)?)?;
        position = next_position(position)?;
    }
    Ok(())
}

fn kept_answer(
    tables: &VersionedTables,
    source: u32,
    position: u32,
    entry: &LogEntry,
) -> Result<Option<Value>, AllocError>
    requires fits { FitsTables tables.now.widths entry.now.act }
    requires stands { Stands tables.now.widths position tables.now.rows }
    ensures own { IfOk result (λ kept. is_some kept ≡ is_own entry.now source position) }
    ensures answer { IfOk result
        (λ kept. IfSome kept (IsAnswerThen entry.now.act position tables.now)) }
{
    if selects_alone(&entry.act) && source == position {
        Ok(Some(tables.answer_at(position, &entry.act)?))
    } else {
        Ok(None)
    }
}
