ghost use Rattle.std.specs.Prelude.{◌≡◌, ◌<◌, length, OnOk, IfOk, [], ◌∷◌};
ghost use Rattle.std.specs.Option.{option_copied};
ghost use Rattle.versioned_tables.specs.Standing.{AreFrom, NotesRows, ChangesIn};

use crate::keys::Key;
use object_tables::tables::Tables;
use script_tree::text::Text;
use script_tree::value::Values;
use std::alloc::{AllocError, Global};
use versioned_cells::Histories;

/// From a position on the rows of these keys are those of a part.
pub fn note_rows(
    alloc: Global,
    tables: &mut Vec<Histories<Values>>,
    since: u32,
    keys: &[Key],
    part: &Tables,
) -> Result<(), AllocError>
    requires from { AreFrom since tables.old.items }
    requires widths { length part.now.widths ≡ length tables.old.items }
    ensures { OnOk result
        (NotesRows since keys.now part.now.tables tables.old.items tables.new.items) }
{
    for key in keys {
        note_row(alloc, tables, since, key, part)?;
    }
    Ok(())
}

/// The same of one key.
fn note_row(
    alloc: Global,
    tables: &mut Vec<Histories<Values>>,
    since: u32,
    key: &Key,
    part: &Tables,
) -> Result<(), AllocError>
    requires from { AreFrom since tables.old.items }
    requires widths { length part.now.widths ≡ length tables.old.items }
    ensures { OnOk result
        (NotesRows since (key.now ∷ []) part.now.tables tables.old.items tables.new.items) }
{
    let i = key.0 as usize;
    if i >= tables.len() {
        return Ok(());
    }
    let row = copied(part.row(key.0, &key.1))?;
    change_in(alloc, tables, i, &key.1, since, row)
}

/// A copy of a row, where there is one.
fn copied(row: Option<&Values>) -> Result<Option<Values>, AllocError>
    ensures { IfOk result (λ copy. copy ≡ option_copied row.entry) }
{
    match row {
        Some(row) => Ok(Some(row.clone()?)),
        None => Ok(None),
    }
}

/// From a position on this row of one table stands there, where it didn't before.
fn change_in(
    alloc: Global,
    tables: &mut Vec<Histories<Values>>,
    i: usize,
    key: &Text,
    since: u32,
    row: Option<Values>,
) -> Result<(), AllocError>
    requires within { i < length tables.old.items }
    requires from { AreFrom since tables.old.items }
    ensures { OnOk result (ChangesIn i key.now since row tables.old.items tables.new.items) }
{
    tables[i].change(alloc, key, since, row)?;
    Ok(())
}
