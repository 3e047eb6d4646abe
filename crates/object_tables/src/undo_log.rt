ghost use Rattle.std.specs.Prelude.{◌≡◌, ◌<◌, map, IfOk, OnOk, OnErr, Some, vec_len, vec_capacity, ◌++◌, ◌∷◌, []};
ghost use Rattle.object_tables.specs.Slots.{rows_of, IsOrdered};
ghost use Rattle.object_tables.specs.UndoLog.{slots_at, put_at, replaced_at, restored_at, Restores, settled_at, put_back, is_noted, AllFiled, AreWholeBut, AreWhole};
ghost use Rattle.object_tables.specs.Storages.{slots_in, rows_in, before, Puts, Replaces};

use crate::table::{Slot, Slots};
use script_tree::text::Text;
use script_tree::value::Values;
use std::alloc::AllocError;

/// What a change replaced: the slot of a key, or that there was none.
#[derive(Drop)]
pub struct Undo {
    pub table: usize,
    pub key: Text,
    pub before: Option<Slot>,
}

/// The tables, and what takes back the changes of the transaction that runs.
#[derive(Drop)]
pub struct Storage {
    pub tables: Vec<Slots>,
    pub undo_log: Vec<Undo>,
}

/// Puts a row at a key of a table, and gives the slot before.
#[tactic(auto, using(crate::proofs::Places::back_in))]
pub fn put_in(
    tables: &mut Vec<Slots>,
    table: usize,
    key: Text,
    row: Values,
) -> Result<Option<Slot>, AllocError>
    requires { table < vec_len tables.old }
    ensures ok { OnOk result (tables.new.items ≡ put_at table key (Some row) tables.old.items) }
    ensures undo { IfOk result (Restores table key tables.new.items tables.old.items) }
    ensures err { OnErr result (tables.new.items ≡ tables.old.items) }
    ensures len { vec_len tables.new ≡ vec_len tables.old }
{
    let before = tables[table].put(key, row)?;
    Ok(before)
}

/// Puts another slot at a key of a table, and gives the one before.
#[tactic(auto, using(crate::proofs::Places::back_in))]
fn replace_in(tables: &mut Vec<Slots>, table: usize, key: &Text, slot: Slot) -> Option<Slot>
    requires { table < vec_len tables.old }
    ensures after { tables.new.items ≡ replaced_at table key.now slot tables.old.items }
    ensures undo { restored_at table key.now result tables.new.items ≡ tables.old.items }
    ensures len { vec_len tables.new ≡ vec_len tables.old }
{
    tables[table].replace(key, slot)
}

/// Adds a change for which there is room.
fn note(undo_log: &mut Vec<Undo>, undo: Undo)
    requires { vec_len undo_log.old < vec_capacity undo_log.old }
    ensures { undo_log.new.items ≡ undo_log.old.items ++ undo ∷ [] }
{
    let _ = undo_log.push(undo);
}

/// Puts a row at a key of a table, and notes what was there.
pub fn put(storage: &mut Storage, table: usize, key: Text, row: Values) -> Result<(), AllocError>
    requires { table < vec_len storage.old.tables }
    ensures ok { OnOk result (Puts table key (Some row) storage.old storage.new) }
    ensures before { before storage.new ≡ before storage.old }
    ensures len { vec_len storage.new.tables ≡ vec_len storage.old.tables }
{
    let saved = key.clone()?;
    storage.undo_log.reserve(1)?;
    let before = put_in(&mut storage.tables, table, key, row)?;
    note(
        &mut storage.undo_log,
        Undo {
            table,
            key: saved,
            before,
        },
    );
    Ok(())
}

/// Puts another slot at a key of a table, and notes what was there.
pub fn replace(storage: &mut Storage, table: usize, key: Text, slot: Slot) -> Result<(), AllocError>
    requires { table < vec_len storage.old.tables }
    ensures ok { OnOk result (Replaces table key slot storage.old storage.new) }
    ensures before { before storage.new ≡ before storage.old }
    ensures len { vec_len storage.new.tables ≡ vec_len storage.old.tables }
{
    storage.undo_log.reserve(1)?;
    let before = replace_in(&mut storage.tables, table, &key, slot);
    note(&mut storage.undo_log, Undo { table, key, before });
    Ok(())
}

/// Takes a change back.
fn step_back(tables: &mut Vec<Slots>, undo: Undo)
    ensures { tables.new.items ≡ put_back undo tables.old.items }
{
    let Undo { table, key, before } = undo;
    if table < tables.len() {
        tables[table].restore(&key, before);
    }
}

/// Takes all changes back, the last one first. This takes no memory.
pub fn take_back(storage: &mut Storage)
    ensures slots { slots_in storage.new ≡ before storage.old }
    ensures undo_log { storage.new.undo_log.items ≡ [] }
{
    while let Some(last) = storage.undo_log.pop() {
        step_back(&mut storage.tables, last);
    }
}

/// Takes the slot out that a change left, where it is empty.
fn settle_one(tables: &mut Vec<Slots>, undo: &Undo)
    ensures after { tables.new.items ≡ settled_at undo.now.table undo.now.key tables.old.items }
    ensures ordered { IsOrdered (slots_at undo.now.table tables.old.items) }
{
    if undo.table < tables.len() {
        tables[undo.table].settle(&undo.key);
    }
}

/// Takes the empty slots out that changes left.
fn settle_all(tables: &mut Vec<Slots>, undo_log: &[Undo])
    requires { AreWholeBut (is_noted undo_log.now) tables.old.items }
    ensures rows { map rows_of tables.new.items ≡ map rows_of tables.old.items }
    ensures filed { AllFiled tables.old.items → AllFiled tables.new.items }
    ensures whole { AreWhole tables.new.items }
{
    for undo in undo_log {
        settle_one(tables, undo);
    }
}

/// Leaves the changes as they are: takes the empty slots out, and forgets what was there.
pub fn settle(storage: &mut Storage)
    requires { AreWholeBut (is_noted storage.old.undo_log.items) (slots_in storage.old) }
    ensures rows { rows_in storage.new ≡ rows_in storage.old }
    ensures filed { AllFiled (slots_in storage.old) → AllFiled (slots_in storage.new) }
    ensures whole { AreWhole (slots_in storage.new) }
    ensures undo_log { storage.new.undo_log.items ≡ [] }
{
    settle_all(&mut storage.tables, storage.undo_log.as_slice());
    storage.undo_log.clear();
}
