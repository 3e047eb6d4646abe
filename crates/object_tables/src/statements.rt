ghost use Rattle.std.specs.Prelude.{◌≡◌, ◌<◌, map, IfOk, OnOk, OnErr, Ok, false, Some, None, vec_len, slice_set, if◌then◌else◌, pos, length};
ghost use Rattle.std.specs.Option.{option_map};
ghost use Rattle.script_tree.specs.Datum.{list, data_of};
ghost use Rattle.basis.specs.Lists.{with_nth};
ghost use Rattle.script_tree.specs.Transactions.{key, table_at, with_row, row_count, updated_rows, other_rows, selected_columns, meeting_rows, after_statement};
ghost use Rattle.object_tables.specs.Slots.{rows_of, with_puts, IsText, KeepKeys, IsRunnable};
ghost use Rattle.object_tables.specs.UndoLog.{with_puts_at, AllFiled, AreWhole};
ghost use Rattle.object_tables.specs.Storages.{slots_in, rows_in, before, ReplacesAll, Inserts, Does, Counts, Shows};
ghost use Rattle.object_tables.specs.TransactionEnds.{IsInserted};
ghost use Rattle.script_tree.specs.declared.transaction.Statement.TheVariants.{Select, Update, Delete};

use crate::keys::key_of;
use crate::table::{Slot, Slots};
use crate::undo_log::{Storage, put, put_in, replace};
use script_tree::text::Text;
use script_tree::transaction::{Change, Statement, Test};
use script_tree::value::{Value, Values};
use std::alloc::{AllocError, Global};

/// Inserts a row, unless its key is there.
pub fn insert(storage: &mut Storage, table: usize, row: &Values) -> Result<bool, AllocError>
    requires within { table < vec_len storage.old.tables }
    requires filed { AllFiled (slots_in storage.old) }
    requires keyed { IsText (key row.now) }
    ensures done { IfOk result (Inserts table row.now storage.old storage.new) }
    ensures filed { OnOk result (AllFiled (slots_in storage.new)) }
    ensures before { before storage.new ≡ before storage.old }
    ensures len { vec_len storage.new.tables ≡ vec_len storage.old.tables }
{
    let key = key_of(row)?;
    if storage.tables[table].has_row(&key) {
        return Ok(false);
    }
    let copy = row.clone()?;
    put(storage, table, key, copy)?;
    Ok(true)
}

/// Inserts a row that no transaction takes back, unless its key is there.
pub fn insert_in(tables: &mut Vec<Slots>, table: usize, row: Values) -> Result<bool, AllocError>
    requires within { table < vec_len tables.old }
    requires filed { AllFiled tables.old.items }
    requires keyed { IsText (key row) }
    ensures done { IfOk result
        (IsInserted table row (map rows_of tables.old.items) (map rows_of tables.new.items)) }
    ensures filed { AllFiled tables.new.items }
    ensures whole { AreWhole tables.old.items → AreWhole tables.new.items }
    ensures err { OnErr result (tables.new.items ≡ tables.old.items) }
{
    let key = key_of(&row)?;
    if tables[table].has_row(&key) {
        return Ok(false);
    }
    put_in(tables, table, key, row)?;
    Ok(true)
}

/// Puts all of these slots at their keys, the last one first.
fn replace_all(
    storage: &mut Storage,
    table: usize,
    mut puts: Vec<(Text, Slot)>,
) -> Result<(), AllocError>
    requires within { table < vec_len storage.old.tables }
    ensures ok { OnOk result (ReplacesAll table puts.items storage.old storage.new) }
    ensures before { before storage.new ≡ before storage.old }
    ensures len { vec_len storage.new.tables ≡ vec_len storage.old.tables }
{
    while let Some((key, slot)) = puts.pop() {
        replace(storage, table, key, slot)?;
    }
    Ok(())
}

/// How many there are.
fn count_of(puts: &Vec<(Text, Slot)>) -> i64
    ensures { result ≡ pos (length puts.now.items) }
{
    puts.len() as i64
}

/// Changes the rows that pass all tests, and says how many.
#[tactic(auto, using(crate::proofs::Places::rows_there, crate::proofs::Places::filed_here))]
pub fn update(
    alloc: Global,
    storage: &mut Storage,
    table: usize,
    changes: &[Change],
    tests: &[Test],
) -> Result<i64, AllocError>
    requires within { table < vec_len storage.old.tables }
    requires filed { AllFiled (slots_in storage.old) }
    requires keys { KeepKeys changes.now }
    ensures done { IfOk result
        (Counts (Update table changes.now tests.now) storage.old storage.new) }
    ensures filed { OnOk result (AllFiled (slots_in storage.new)) }
    ensures before { before storage.new ≡ before storage.old }
    ensures len { vec_len storage.new.tables ≡ vec_len storage.old.tables }
{
    let puts = storage.tables[table].changed_rows(alloc, changes, tests)?;
    let changed = count_of(&puts);
    replace_all(storage, table, puts)?;
    Ok(changed)
}

/// Takes the rows out that pass all tests, and says how many.
#[tactic(auto, using(crate::proofs::Places::rows_there, crate::proofs::Places::filed_here))]
pub fn delete(
    alloc: Global,
    storage: &mut Storage,
    table: usize,
    tests: &[Test],
) -> Result<i64, AllocError>
    requires within { table < vec_len storage.old.tables }
    requires filed { AllFiled (slots_in storage.old) }
    ensures done { IfOk result (Counts (Delete table tests.now) storage.old storage.new) }
    ensures filed { OnOk result (AllFiled (slots_in storage.new)) }
    ensures before { before storage.new ≡ before storage.old }
    ensures len { vec_len storage.new.tables ≡ vec_len storage.old.tables }
{
    let puts = storage.tables[table].taken_rows(alloc, tests)?;
    let removed = count_of(&puts);
    replace_all(storage, table, puts)?;
    Ok(removed)
}

/// Columns of the rows that pass all tests, as a list of lists.
#[tactic(auto, using(crate::proofs::Places::rows_there, crate::proofs::Places::filed_here))]
pub fn select(
    alloc: Global,
    storage: &Storage,
    table: usize,
    columns: &[u32],
    tests: &[Test],
) -> Result<Value, AllocError>
    requires within { table < vec_len storage.now.tables }
    requires filed { AllFiled (slots_in storage.now) }
    ensures { IfOk result (Shows (Select table columns.now tests.now) storage.now) }
{
    let rows = storage.tables[table].select(alloc, columns, tests)?;
    Ok(Value::list(Values::from_vec(rows)?))
}

/// How many rows pass all tests.
#[tactic(auto, using(crate::proofs::Places::rows_there, crate::proofs::Places::filed_here))]
pub fn count(storage: &Storage, table: usize, tests: &[Test]) -> i64
    requires within { table < vec_len storage.now.tables }
    requires filed { AllFiled (slots_in storage.now) }
    ensures { result ≡ row_count tests.now (table_at table (rows_in storage.now)) }
{
    storage.tables[table].count(tests)
}

/// Runs a statement: its answer, or nothing where it aborts.
pub fn run(
    alloc: Global,
    storage: &mut Storage,
    statement: &Statement,
) -> Result<Option<Value>, AllocError>
    requires fits { IsRunnable (vec_len storage.old.tables) statement.now }
    requires filed { AllFiled (slots_in storage.old) }
    ensures done { IfOk result (Does statement.now storage.old storage.new) }
    ensures filed { OnOk result (AllFiled (slots_in storage.new)) }
    ensures before { before storage.new ≡ before storage.old }
    ensures len { vec_len storage.new.tables ≡ vec_len storage.old.tables }
{
    match statement {
        Statement::Insert { table, row } => {
            if insert(storage, *table as usize, row)? {
                Ok(Some(Value::null()))
            } else {
                Ok(None)
            }
        }
        Statement::Select {
            table,
            columns,
            tests,
        } => {
            let rows = select(
                alloc,
                storage,
                *table as usize,
                columns.as_slice(),
                tests.as_slice(),
            )?;
            Ok(Some(rows))
        }
        Statement::Update {
            table,
            changes,
            tests,
        } => {
            let n = update(
                alloc,
                storage,
                *table as usize,
                changes.as_slice(),
                tests.as_slice(),
            )?;
            Ok(Some(Value::number(n)))
        }
        Statement::Delete { table, tests } => {
            let n = delete(alloc, storage, *table as usize, tests.as_slice())?;
            Ok(Some(Value::number(n)))
        }
        Statement::Expect {
            count: wanted,
            table,
            tests,
        } => {
            if count(storage, *table as usize, tests.as_slice()) == *wanted {
                Ok(Some(Value::null()))
            } else {
                Ok(None)
            }
        }
    }
}
