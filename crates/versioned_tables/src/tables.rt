ghost use Rattle.std.specs.Prelude.{◌≡◌, ℕ, length, OnOk, IfOk, IfSome};
ghost use Rattle.script_tree.specs.Fit.{IsTable};
ghost use Rattle.script_fit.specs.FitsOperation.{FitsTables};
ghost use Rattle.versioned_tables.specs.Standing.{Stands, AreFrom, AllChange, IsFoundAt, AreFound};
ghost use Rattle.versioned_tables.specs.OverTime.{TellsTables, IsAnswerThen, FitEntries, BeginsTables, BeginsTable, AdvancesBy, over_time};

use crate::found::{Found, found_at};
use crate::moves;
use crate::reads::only_read;
use object_tables::keys::key_of;
use object_tables::rows::Rows;
use object_tables::tables::Tables;
use period::report::LogEntry;
use script_tree::operation::Act;
use script_tree::value::{Value, Values};
use std::alloc::{AllocError, Global};
use std::marker::Model;
use versioned_cells::{Histories, History, next_position};

/// The tables of a program over time: per row its versions, each with the position from which it
/// stands. An entry that aborts makes none. Of each entry that may change rows the first row is kept
/// that it looks at, so that it need not be looked for again.
#[derive(Drop)]
pub struct VersionedTables {
    alloc: Global,
    widths: Vec<usize>,
    tables: Vec<Histories<Values>>,
    found: Vec<Option<Found>>,
}

/// The rows over time, and what was found for each entry.
#[derive(Drop)]
struct Built {
    tables: Vec<Histories<Values>>,
    found: Vec<Option<Found>>,
}

impl Model for VersionedTables {
    ghost use Rattle.versioned_tables.specs.OverTime.{OverTime, coded_over_time};

    ghost Value = { OverTime };

    ghost coded = { coded_over_time };

    ghost use Rattle.versioned_tables.specs.OverTimeView.{tables_in, IsKept};

    ghost view = { tables_in };

    ghost invariant = { IsKept };
}

impl VersionedTables {
    /// The tables over time, by their start and their log.
    pub fn build(
        alloc: Global,
        start: &Tables,
        entries: &[LogEntry],
    ) -> Result<VersionedTables, AllocError>
        requires { FitEntries start.now.widths entries.now }
        ensures { IfOk result (TellsTables entries.now start.now) }
    {
        let widths = Vec::from_slice(alloc, start.widths())?;
        let Built { tables, found } = tables_over(alloc, start, widths.as_slice(), entries)?;
        Ok(VersionedTables {
            alloc,
            widths,
            tables,
            found,
        })
    }

    /// The answer of an act at a position of the log.
    pub fn answer_at(&self, position: u32, act: &Act) -> Result<Value, AllocError>
        requires fits { FitsTables self.now.widths act.now }
        requires stands { Stands self.now.widths position self.now.rows }
        ensures { IfOk result (IsAnswerThen act.now position self.now) }
    {
        match act {
            Act::Transact(statements) => moves::answer_at(
                self.alloc,
                self.widths.as_slice(),
                self.tables.as_slice(),
                position,
                found_at(self.found.as_slice(), position),
                statements,
            ),
            Act::Read
            | Act::Write(_)
            | Act::Get(_)
            | Act::Put(_, _)
            | Act::Remove(_)
            | Act::Now
            | Act::Roll(_) => unreachable!(),
        }
    }
}

/// The rows over time.
fn tables_over(
    alloc: Global,
    start: &Tables,
    widths: &[usize],
    entries: &[LogEntry],
) -> Result<Built, AllocError>
    requires fits { FitEntries start.now.widths entries.now }
    requires same { widths.now ≡ start.now.widths }
    ensures tells { IfOk result (λ built.
        TellsTables entries.now start.now (over_time widths.now built.tables.items)) }
    ensures count { IfOk result (λ built. length built.tables.items ≡ length widths.now) }
    ensures changes { IfOk result (λ built. AllChange built.tables.items) }
    ensures found { IfOk result (λ built. AreFound built.tables.items built.found.items) }
{
    let mut tables = begun(alloc, start)?;
    let mut found = Vec::with_capacity(alloc, entries.len())?;
    let mut position = 0u32;
    for entry in entries {
        found.push(note_act(alloc, widths, &mut tables, position, &entry.act)?)?;
        position = next_position(position)?;
    }
    Ok(Built { tables, found })
}

/// What stands at the start.
fn begun(alloc: Global, start: &Tables) -> Result<Vec<Histories<Values>>, AllocError>
    ensures { IfOk result (λ tables. BeginsTables start.now tables.items) }
{
    let count = start.widths().len();
    let mut tables = Vec::with_capacity(alloc, count)?;
    for table in 0..count {
        tables.push(histories_of(alloc, start.rows(table))?)?;
    }
    Ok(tables)
}

fn histories_of(alloc: Global, rows: Rows<'_>) -> Result<Histories<Values>, AllocError>
    requires { (width : ℕ) × IsTable width rows }
    ensures { IfOk result (BeginsTable rows.entry) }
{
    let mut histories = Vec::new(alloc);
    for row in rows {
        let history = History::begun(alloc, 0, Some(row.clone()?));
        histories.push((key_of(row)?, history))?;
    }
    Histories::from_vec(alloc, histories)
}

/// Notes what an act at a position makes of the rows, and gives what `moves::advance` does.
fn note_act(
    alloc: Global,
    widths: &[usize],
    tables: &mut Vec<Histories<Values>>,
    position: u32,
    act: &Act,
) -> Result<Option<Found>, AllocError>
    requires fits { FitsTables widths.now act.now }
    requires stands { Stands widths.now position tables.old.items }
    requires from { AreFrom position tables.old.items }
    requires count { length tables.old.items ≡ length widths.now }
    ensures advances { OnOk result
        (AdvancesBy widths.now position act.now tables.old.items tables.new.items) }
    ensures found { IfOk result (λ found. IfSome found (IsFoundAt position tables.old.items)) }
{
    match act {
        Act::Transact(statements) => {
            if only_read(statements.as_slice()) {
                return Ok(None);
            }
            moves::advance(alloc, widths, tables, position, statements)
        }
        Act::Read
        | Act::Write(_)
        | Act::Get(_)
        | Act::Put(_, _)
        | Act::Remove(_)
        | Act::Now
        | Act::Roll(_) => unreachable!(),
    }
}
