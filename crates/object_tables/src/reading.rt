ghost use Rattle.std.specs.Prelude.{◌≡◌, ◌<◌, ◌^◌, length, pos, map, IfOk, Some, None};
ghost use Rattle.script_tree.specs.Order.{compares};
ghost use Rattle.script_tree.specs.Datum.{null};
ghost use Rattle.script_tree.specs.Transactions.{column, meets, row_count, selected_columns, meeting_rows, changed_row};
ghost use Rattle.object_tables.specs.Slots.{rows_of, selected, update_puts, delete_puts, IsFiled};

use crate::ranges::candidates;
use crate::table::Slot;
use script_tree::comparison::Comparison;
use script_tree::text::Text;
use script_tree::transaction::{Change, Test};
use script_tree::value::{Value, Values};
use std::alloc::{AllocError, Global};
use std::cmp::Ordering;
use std::collections::BTreeMap;

/// Two values compared.
fn compare_by(comparison: Comparison, a: &Value, b: &Value) -> bool
    ensures { result ≡ compares comparison a.now b.now }
{
    let ordering = a.compare(b);
    match comparison {
        Comparison::Equal => ordering == Ordering::Equal,
        Comparison::Unequal => ordering != Ordering::Equal,
        Comparison::Less => ordering == Ordering::Less,
        Comparison::AtMost => ordering != Ordering::Greater,
        Comparison::Greater => ordering == Ordering::Greater,
        Comparison::AtLeast => ordering != Ordering::Less,
    }
}

/// Whether a row passes a test. A column that it doesn't have is null.
fn is_met(test: &Test, row: &[Value]) -> bool
    ensures { result
        ≡ compares test.now.comparison (column test.now.column row.now) test.now.value }
{
    let i = test.column as usize;
    if i < row.len() {
        compare_by(test.comparison, &row[i], &test.value)
    } else {
        compare_by(test.comparison, &Value::null(), &test.value)
    }
}

/// Whether a row passes all tests.
pub fn meets_all(tests: &[Test], row: &[Value]) -> bool
    ensures { result ≡ meets tests.now row.now }
{
    for test in tests {
        if !is_met(test, row) {
            return false;
        }
    }
    true
}

/// How many rows pass all tests.
pub fn count(slots: &BTreeMap<Text, Slot>, tests: &[Test]) -> i64
    requires { IsFiled slots.now.entries }
    ensures { result ≡ row_count tests.now (rows_of slots.now.entries) }
{
    let mut n = 0usize;
    for (_, slot) in candidates(slots, tests) {
        if let Some(row) = slot {
            if meets_all(tests, row.as_slice()) {
                n += 1;
            }
        }
    }
    n as i64
}

/// A column of a row. A column that it doesn't have is null.
fn value_at(row: &[Value], number: u32) -> Result<Value, AllocError>
    ensures { IfOk result (λ value. value ≡ column number row.now) }
{
    let i = number as usize;
    if i < row.len() {
        Ok(row[i].clone()?)
    } else {
        Ok(Value::null())
    }
}

/// Columns of a row, as a list.
fn columns_of(alloc: Global, row: &[Value], columns: &[u32]) -> Result<Value, AllocError>
    ensures { IfOk result (λ value. value ≡ selected_columns columns.now row.now) }
{
    let mut values = Vec::new(alloc);
    for column in columns {
        values.push(value_at(row, *column)?)?;
    }
    Ok(Value::list(Values::from_vec(values)?))
}

/// Columns of the rows that pass all tests.
pub fn select(
    alloc: Global,
    slots: &BTreeMap<Text, Slot>,
    columns: &[u32],
    tests: &[Test],
) -> Result<Vec<Value>, AllocError>
    requires { IsFiled slots.now.entries }
    ensures { IfOk result
        (λ rows. rows.items ≡ selected columns.now tests.now (rows_of slots.now.entries)) }
{
    let mut rows = Vec::new(alloc);
    for (_, slot) in candidates(slots, tests) {
        if let Some(row) = slot {
            if meets_all(tests, row.as_slice()) {
                rows.push(columns_of(alloc, row.as_slice(), columns)?)?;
            }
        }
    }
    Ok(rows)
}

/// A row with some changes made.
fn change(row: &Values, changes: &[Change]) -> Result<Values, AllocError>
    ensures { IfOk result (λ changed. changed ≡ changed_row changes.now row.now) }
{
    let mut values = row.clone()?.into_vec()?;
    for change in changes {
        let i = change.column as usize;
        if i < values.len() {
            values[i] = change.value.clone()?;
        }
    }
    Values::from_vec(values)
}

/// What is put for the rows that pass all tests: these rows with some changes made.
pub fn changed_rows(
    alloc: Global,
    slots: &BTreeMap<Text, Slot>,
    changes: &[Change],
    tests: &[Test],
) -> Result<Vec<(Text, Slot)>, AllocError>
    requires { IsFiled slots.now.entries }
    ensures { IfOk result
        (λ puts. puts.items ≡ update_puts changes.now tests.now slots.now.entries) }
{
    let mut puts = Vec::new(alloc);
    for (key, slot) in candidates(slots, tests) {
        if let Some(row) = slot {
            if meets_all(tests, row.as_slice()) {
                puts.push((key.clone()?, Some(change(row, changes)?)))?;
            }
        }
    }
    Ok(puts)
}

/// What is put for the rows that pass all tests, to take them out: nothing at their keys.
pub fn taken_rows(
    alloc: Global,
    slots: &BTreeMap<Text, Slot>,
    tests: &[Test],
) -> Result<Vec<(Text, Slot)>, AllocError>
    requires { IsFiled slots.now.entries }
    ensures { IfOk result (λ puts. puts.items ≡ delete_puts tests.now slots.now.entries) }
{
    let mut puts = Vec::new(alloc);
    for (key, slot) in candidates(slots, tests) {
        if let Some(row) = slot {
            if meets_all(tests, row.as_slice()) {
                puts.push((key.clone()?, None))?;
            }
        }
    }
    Ok(puts)
}
