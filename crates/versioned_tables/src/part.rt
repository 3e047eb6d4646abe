ghost use Rattle.std.specs.Prelude.{◌≡◌, OnOk, IfOk, IfSome, Some};
ghost use Rattle.std.specs.Option.{option_copied};
ghost use Rattle.script_tree.specs.Transactions.{Row as AnyRow};
ghost use Rattle.script_fit.specs.FitsTransaction.{FitsRow};
ghost use Rattle.versioned_tables.specs.Standing.{row_then, Stands, IsFoundAt, IsPartAt, AddsRow};

use crate::found::{Found, is_found};
use crate::keys::Key;
use object_tables::tables::Tables;
use script_tree::text::Text;
use script_tree::value::Values;
use std::alloc::{AllocError, Global};
use versioned_cells::Histories;

/// The row of a key of a table at a position. It takes no memory.
pub fn row_at<'a>(
    tables: &'a [Histories<Values>],
    position: u32,
    table: u32,
    key: &Text,
) -> Option<&'a Values>
    ensures { option_copied result ≡ row_then position tables.now table key.now }
{
    let i = table as usize;
    if i < tables.len() {
        tables[i].at(position, key)
    } else {
        None
    }
}

/// The rows of these keys at a position, as tables of their own.
pub fn part_at(
    alloc: Global,
    widths: &[usize],
    tables: &[Histories<Values>],
    position: u32,
    found: Option<&Found>,
    keys: &[Key],
) -> Result<Tables, AllocError>
    requires stands { Stands widths.now position tables.now }
    requires found { IfSome (option_copied found) (IsFoundAt position tables.now) }
    ensures { IfOk result (IsPartAt position tables.now keys.now widths.now) }
{
    let mut part = Tables::without_rows(alloc, Vec::from_slice(alloc, widths)?)?;
    for key in keys {
        add_row(&mut part, tables, position, found, key)?;
    }
    Ok(part)
}

/// Adds the row of a key, where one stands.
fn add_row(
    part: &mut Tables,
    tables: &[Histories<Values>],
    position: u32,
    found: Option<&Found>,
    key: &Key,
) -> Result<(), AllocError>
    requires fits { (row : AnyRow) → row_then position tables.now key.now.0 key.now.1 ≡ Some row →
        FitsRow part.old.widths key.now.0 row }
    requires found { IfSome (option_copied found) (IsFoundAt position tables.now) }
    ensures added { OnOk result (AddsRow key.now.0
        (row_then position tables.now key.now.0 key.now.1) part.old.tables part.new.tables) }
    ensures widths { part.new.widths ≡ part.old.widths }
{
    match row_of(tables, position, found, key) {
        Some(row) => {
            let copy = row.clone()?;
            part.insert_row(key.0, copy)?;
            Ok(())
        }
        None => Ok(()),
    }
}

/// The row of a key at a position: the row that was found, where it is this, else as `row_at` finds it.
fn row_of<'a>(
    tables: &'a [Histories<Values>],
    position: u32,
    found: Option<&'a Found>,
    key: &Key,
) -> Option<&'a Values>
    requires { IfSome (option_copied found) (IsFoundAt position tables.now) }
    ensures { option_copied result ≡ row_then position tables.now key.now.0 key.now.1 }
{
    match found {
        Some(found) => {
            if is_found(found, key) {
                return Some(&found.1);
            }
            row_at(tables, position, key.0, &key.1)
        }
        None => row_at(tables, position, key.0, &key.1),
    }
}
