ghost use Rattle.std.specs.Prelude.{◌≡◌, List, ℕ, IfOk, IfSome, IsTrue, Some};
ghost use Rattle.basis.specs.Lists.{nth};
ghost use Rattle.script_tree.specs.Datum.{text};
ghost use Rattle.script_tree.specs.Transactions.{key as key_in};
ghost use Rattle.versioned_tables.specs.Standing.{Stands, IsFoundAt};

use crate::keys::{Key, text_in};
use crate::part::row_at;
use script_tree::text::Text;
use script_tree::value::{Value, Values};
use std::alloc::AllocError;
use versioned_cells::Histories;

/// A row that was found at some position, with the number of its table.
pub type Found = (u32, Values);

/// The row of the first of some keys at a position, where one stands.
pub fn first_found(
    tables: &[Histories<Values>],
    position: u32,
    keys: &[Key],
) -> Result<Option<Found>, AllocError>
    requires { (widths : List ℕ) × Stands widths position tables.now }
    ensures { IfOk result (λ found. IfSome found (IsFoundAt position tables.now)) }
{
    match keys.first() {
        Some(key) => found_by(tables, position, key),
        None => Ok(None),
    }
}

/// The row of a key at a position, where one stands.
fn found_by(
    tables: &[Histories<Values>],
    position: u32,
    key: &Key,
) -> Result<Option<Found>, AllocError>
    requires { (widths : List ℕ) × Stands widths position tables.now }
    ensures { IfOk result (λ found. IfSome found (IsFoundAt position tables.now)) }
{
    match row_at(tables, position, key.0, &key.1) {
        Some(row) => Ok(Some((key.0, row.clone()?))),
        None => Ok(None),
    }
}

/// What was found for a position.
pub fn found_at(found: &[Option<Found>], position: u32) -> Option<&Found>
    ensures { IfSome result (λ f. nth found.now position ≡ Some (Some f.now)) }
{
    let i = position as usize;
    if i < found.len() {
        found[i].as_ref()
    } else {
        None
    }
}

/// Whether the row that was found is that of a key.
pub fn is_found(found: &Found, key: &Key) -> bool
    ensures table { IsTrue result → found.now.0 ≡ key.now.0 }
    ensures row { IsTrue result → key_in found.now.1 ≡ text key.now.1 }
{
    found.0 == key.0 && has_key(&found.1, &key.1)
}

/// Whether a row has this key.
fn has_key(row: &Values, key: &Text) -> bool
    ensures { IsTrue result → key_in row.now ≡ text key.now }
{
    match row.as_slice().first() {
        Some(value) => is_text(value, key),
        None => false,
    }
}

/// Whether a value is this text.
fn is_text(value: &Value, wanted: &Text) -> bool
    ensures { IsTrue result → value.now ≡ text wanted.now }
{
    match text_in(value) {
        Some(bytes) => bytes.as_bytes() == wanted.as_bytes(),
        None => false,
    }
}
