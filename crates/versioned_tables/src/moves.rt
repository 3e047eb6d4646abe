ghost use Rattle.std.specs.Prelude.{◌≡◌, length, OnOk, IfOk, IfSome};
ghost use Rattle.std.specs.Option.{option_copied};
ghost use Rattle.script_fit.specs.FitsTransaction.{FitsTransaction};
ghost use Rattle.versioned_tables.specs.Standing.{Stands, AllReached, IsFoundAt, AreFrom, Advances, IsAnswerAt};

use crate::found::{Found, first_found};
use crate::keys::{Key, keys_of};
use crate::notes::note_rows;
use crate::part::part_at;
use object_tables::tables::TransactionEnd;
use script_tree::transaction::Statements;
use script_tree::value::{Value, Values};
use std::alloc::{AllocError, Global};
use versioned_cells::{Histories, next_position};

/// The answer of a transaction on the rows that stand at a position: it is run on those that it may
/// look at.
pub fn answer_at(
    alloc: Global,
    widths: &[usize],
    tables: &[Histories<Values>],
    position: u32,
    found: Option<&Found>,
    statements: &Statements,
) -> Result<Value, AllocError>
    requires fits { FitsTransaction widths.now statements.now }
    requires stands { Stands widths.now position tables.now }
    requires found { IfSome (option_copied found) (IsFoundAt position tables.now) }
    requires count { length tables.now ≡ length widths.now }
    ensures { IfOk result (IsAnswerAt widths.now position tables.now statements.now) }
{
    let keys = keys_of(alloc, tables, statements.as_slice())?;
    let mut part = part_at(alloc, widths, tables, position, found, keys.as_slice())?;
    let outcome = part.transact(alloc, statements)?;
    Ok(outcome.into_answer())
}

/// Notes what a transaction at a position makes of the rows, and gives the first row that it may
/// look at, where one stands.
pub fn advance(
    alloc: Global,
    widths: &[usize],
    tables: &mut Vec<Histories<Values>>,
    position: u32,
    statements: &Statements,
) -> Result<Option<Found>, AllocError>
    requires fits { FitsTransaction widths.now statements.now }
    requires stands { Stands widths.now position tables.old.items }
    requires from { AreFrom position tables.old.items }
    requires count { length tables.old.items ≡ length widths.now }
    ensures advances { OnOk result
        (Advances widths.now position statements.now tables.old.items tables.new.items) }
    ensures found { IfOk result (λ found. IfSome found (IsFoundAt position tables.old.items)) }
{
    let keys = keys_of(alloc, tables.as_slice(), statements.as_slice())?;
    let found = first_found(tables.as_slice(), position, keys.as_slice())?;
    let (first, keys) = (found.as_ref(), keys.as_slice());
    advance_on(alloc, widths, tables, position, first, keys, statements)?;
    Ok(found)
}

/// Notes what a transaction at a position makes of the rows of these keys.
fn advance_on(
    alloc: Global,
    widths: &[usize],
    tables: &mut Vec<Histories<Values>>,
    position: u32,
    found: Option<&Found>,
    keys: &[Key],
    statements: &Statements,
) -> Result<(), AllocError>
    requires fits { FitsTransaction widths.now statements.now }
    requires stands { Stands widths.now position tables.old.items }
    requires found { IfSome (option_copied found) (IsFoundAt position tables.old.items) }
    requires reached { AllReached tables.old.items keys.now statements.now }
    requires from { AreFrom position tables.old.items }
    requires count { length tables.old.items ≡ length widths.now }
    ensures { OnOk result
        (Advances widths.now position statements.now tables.old.items tables.new.items) }
{
    let since = next_position(position)?;
    let mut part = part_at(alloc, widths, tables.as_slice(), position, found, keys)?;
    match part.transact(alloc, statements)? {
        TransactionEnd::Committed(_) => note_rows(alloc, tables, since, keys, &part),
        TransactionEnd::Aborted(_) => Ok(()),
    }
}
