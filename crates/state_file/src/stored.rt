ghost use Rattle.std.specs.Prelude.{◌≡◌, ℕ, List, [], true, not, is_some};
ghost use Rattle.std.specs.Prelude.{Some, None, IfOk, OnOk};
ghost use Rattle.std.specs.Bool.{OnTrue};
ghost use Rattle.std.specs.List.{list_all};
ghost use Rattle.std.specs.Map.{keys_of};
ghost use Rattle.basis.specs.Lists.{nth};
ghost use Rattle.basis.specs.UnlessMemory.{UnlessMemory};
ghost use Rattle.json_texts.specs.Shapes.{has_twice, StandOnce};
ghost use Rattle.object_cells.specs.Stores.{has_store, held_in, AreEmpty};
ghost use Rattle.object_set.specs.ObjectSets.{IsSetOf, IsEmptySet};
ghost use Rattle.script_tree.specs.Declarations.{table_from};
ghost use Rattle.script_tree.specs.Fit.{table_widths};
ghost use Rattle.state_file.specs.Faults.{are_declared, are_within_limits, is_storable};
ghost use Rattle.state_file.specs.Faults.{are_entries_within_limits, are_rows_within_limits};
ghost use Rattle.state_file.specs.Faults.{is_row_within_limits, some_key_is_twice};
ghost use Rattle.state_file.specs.Puts.{PutsRegisters, PutsCells, PutsStores};
ghost use Rattle.state_file.specs.Puts.{ChangesTables, if_done};
ghost use Rattle.state_file.specs.Starts.{IsStored, Holds};
ghost use Rattle.state_file.specs.States.{HasGivenFault};
ghost use Rattle.state_file.specs.Stored.{is_row_of, is_text};
ghost use Rattle.state_file.specs.Stored.{with_row_of, with_rows, with_tables};

use crate::fault::StateFault;
use crate::given::Given;
use crate::limits::are_within_limits;
use basis::{Items, OrMemory};
use object_set::ObjectSet;
use script_check::lookup::Index;
use script_check::program::Program;
use script_tree::text::Text;
use script_tree::value::{Node, Value, Values};
use std::alloc::{AllocError, Global};

/// The objects of a program that hold what is given.
pub fn stored(
    alloc: Global,
    program: &Program,
    given: Given,
) -> Result<ObjectSet, OrMemory<StateFault>>
    requires { StandOnce given.stores }
    ensures { UnlessMemory (IsStored program.now given) (HasGivenFault program.now given) result }
{
    let index = Index::new(alloc, program)?;
    let objects = ObjectSet::new(alloc, program.declarations())?;
    let stored = stored_in(objects, &index, given);
    drop(index);
    stored
}

/// These objects, which hold nothing yet, with what is given.
fn stored_in(
    objects: ObjectSet,
    index: &Index,
    given: Given,
) -> Result<ObjectSet, OrMemory<StateFault>>
    requires empty { IsEmptySet objects }
    requires set { IsSetOf index.now objects }
    requires once { StandOnce given.stores }
    ensures { UnlessMemory (IsStored index.now given) (HasGivenFault index.now given) result }
{
    if !are_declared(&objects, index, &given) {
        drop(objects);
        drop(given);
        return Err(OrMemory::Other(StateFault::Undeclared));
    }
    if !are_within_limits(&given) {
        drop(objects);
        drop(given);
        return Err(OrMemory::Other(StateFault::BeyondLimit));
    }
    all_stored_in(objects, index, given)
}

/// The same where what is given is declared and within the limits.
fn all_stored_in(
    mut objects: ObjectSet,
    index: &Index,
    given: Given,
) -> Result<ObjectSet, OrMemory<StateFault>>
    requires empty { IsEmptySet objects }
    requires set { IsSetOf index.now objects }
    requires once { StandOnce given.stores }
    requires declared { are_declared index.now given ≡ true }
    requires within { are_within_limits given ≡ true }
    ensures { UnlessMemory (IsStored index.now given) (HasGivenFault index.now given) result }
{
    match put_all(&mut objects, index, given) {
        Ok(true) => Ok(objects),
        Ok(false) => {
            drop(objects);
            Err(OrMemory::Other(StateFault::Unstorable))
        }
        Err(AllocError) => {
            drop(objects);
            Err(OrMemory::Memory)
        }
    }
}

/// Whether the stores and the tables that are given are there.
fn are_declared(objects: &ObjectSet, index: &Index, given: &Given) -> bool
    requires { IsSetOf index.now objects.now }
    ensures { result ≡ are_declared index.now given.now }
{
    are_stores_there(objects, given.stores.as_slice())
        && are_tables_there(index, given.tables.as_slice())
}

fn are_stores_there(objects: &ObjectSet, stores: &[(Text, Items<(Text, Value)>)]) -> bool
    ensures { result ≡ list_all (λ s. has_store objects.now.stores s.0) stores.now }
{
    for store in stores {
        if objects.store(&store.0).is_none() {
            return false;
        }
    }
    true
}

fn are_tables_there(index: &Index, tables: &[(Text, Items<Values>)]) -> bool
    ensures { let declarations = index.now.declarations in
        result ≡ list_all (λ t. is_some (table_from 0 t.0 declarations)) tables.now }
{
    for table in tables {
        if index.table(table.0.as_bytes()).is_none() {
            return false;
        }
    }
    true
}

/// Stores what is given, and tells whether all of it could be stored.
fn put_all(objects: &mut ObjectSet, index: &Index, given: Given) -> Result<bool, AllocError>
    requires empty { IsEmptySet objects.old }
    requires set { IsSetOf index.now objects.old }
    requires once { StandOnce given.stores }
    requires declared { are_declared index.now given ≡ true }
    requires within { are_within_limits given ≡ true }
    ensures done { IfOk result (λ done. done ≡ is_storable index.now given) }
    ensures put { IfOk result (λ done. OnTrue done (Holds index.now given objects.new)) }
{
    let Given {
        registers,
        stores,
        tables,
        clock,
    } = given;
    match put_registers(objects, registers.into_vec()) {
        Ok(true) => {}
        unstored => {
            drop(stores);
            drop(tables);
            return unstored;
        }
    }
    match put_stores(objects, stores.into_vec()) {
        Ok(true) => {}
        unstored => {
            drop(tables);
            return unstored;
        }
    }
    if !put_tables(objects, index, tables.into_vec())? {
        return Ok(false);
    }
    objects.set_clock(clock);
    Ok(true)
}

/// IsJsonOf registers their values, and tells whether none is given twice.
fn put_registers(
    objects: &mut ObjectSet,
    mut registers: Vec<(Text, Value)>,
) -> Result<bool, AllocError>
    requires empty { objects.old.registers ≡ [] }
    requires within { are_entries_within_limits registers.items ≡ true }
    ensures done { IfOk result (λ done. done ≡ not (has_twice (keys_of registers.items))) }
    ensures put { IfOk result (λ done. OnTrue done
        (PutsRegisters registers.items objects.old objects.new)) }
{
    while let Some((name, value)) = registers.pop() {
        if objects.put_register(name, value)? {
            return Ok(false);
        }
    }
    Ok(true)
}

/// The same of stores and their keys.
fn put_stores(
    objects: &mut ObjectSet,
    mut stores: Vec<(Text, Items<(Text, Value)>)>,
) -> Result<bool, AllocError>
    requires empty { AreEmpty objects.old.stores }
    requires there { list_all (λ s. has_store objects.old.stores s.0) stores.items ≡ true }
    requires once { StandOnce stores.items }
    requires within { list_all (λ s. are_entries_within_limits s.1) stores.items ≡ true }
    ensures done { IfOk result (λ done. done ≡ not (some_key_is_twice stores.items)) }
    ensures put { IfOk result (λ done. OnTrue done
        (PutsStores stores.items objects.old objects.new)) }
{
    while let Some((name, entries)) = stores.pop() {
        if !put_store(objects, name, entries.into_vec())? {
            return Ok(false);
        }
    }
    Ok(true)
}

/// The same of one store, whose name is let go here.
fn put_store(
    objects: &mut ObjectSet,
    store: Text,
    entries: Vec<(Text, Value)>,
) -> Result<bool, AllocError>
    requires there { has_store objects.old.stores store ≡ true }
    requires empty { (k : List ℕ) → held_in objects.old.stores store k ≡ None }
    requires within { are_entries_within_limits entries.items ≡ true }
    ensures done { IfOk result (λ done. done ≡ not (has_twice (keys_of entries.items))) }
    ensures put { IfOk result (λ done. OnTrue done
        (PutsCells store entries.items objects.old objects.new)) }
{
    put_cells(objects, &store, entries)
}

/// The same of one store's keys.
fn put_cells(
    objects: &mut ObjectSet,
    store: &Text,
    mut entries: Vec<(Text, Value)>,
) -> Result<bool, AllocError>
    requires there { has_store objects.old.stores store.now ≡ true }
    requires empty { (k : List ℕ) → held_in objects.old.stores store.now k ≡ None }
    requires within { are_entries_within_limits entries.items ≡ true }
    ensures done { IfOk result (λ done. done ≡ not (has_twice (keys_of entries.items))) }
    ensures put { IfOk result (λ done. OnTrue done
        (PutsCells store.now entries.items objects.old objects.new)) }
{
    while let Some((key, value)) = entries.pop() {
        if objects.put_cell(store, key, value)? {
            return Ok(false);
        }
    }
    Ok(true)
}

/// Adds rows to tables, and tells whether each is one of its table with a key of its own.
fn put_tables(
    objects: &mut ObjectSet,
    index: &Index,
    tables: Vec<(Text, Items<Values>)>,
) -> Result<bool, AllocError>
    requires widths { objects.old.tables.widths ≡ table_widths index.now.declarations }
    requires within { list_all (λ t. are_rows_within_limits t.1) tables.items ≡ true }
    ensures put { let old = objects.old.tables.tables in
        IfOk result (λ done. with_tables index.now.declarations tables.items old
        ≡ if_done done objects.new.tables.tables) }
    ensures others { OnOk result (ChangesTables objects.old objects.new) }
{
    for (name, rows) in tables {
        let Some(table) = index.table(name.as_bytes()) else {
            return Ok(false);
        };
        if !put_rows(objects, table.number, table.columns.len(), rows.into_vec())? {
            return Ok(false);
        }
    }
    Ok(true)
}

/// The same of one table.
fn put_rows(
    objects: &mut ObjectSet,
    table: u32,
    width: usize,
    rows: Vec<Values>,
) -> Result<bool, AllocError>
    requires there { nth objects.old.tables.widths table ≡ Some width }
    requires within { are_rows_within_limits rows.items ≡ true }
    ensures put { let old = objects.old.tables.tables in
        IfOk result (λ done. with_rows table width rows.items old
        ≡ if_done done objects.new.tables.tables) }
    ensures others { OnOk result (ChangesTables objects.old objects.new) }
{
    for row in rows {
        if !put_row(objects, table, width, row)? {
            return Ok(false);
        }
    }
    Ok(true)
}

/// The same of one row.
fn put_row(
    objects: &mut ObjectSet,
    table: u32,
    width: usize,
    row: Values,
) -> Result<bool, AllocError>
    requires there { nth objects.old.tables.widths table ≡ Some width }
    requires within { is_row_within_limits row ≡ true }
    ensures put { let old = objects.old.tables.tables in
        IfOk result (λ done. with_row_of table width row old
        ≡ if_done done objects.new.tables.tables) }
    ensures others { OnOk result (ChangesTables objects.old objects.new) }
{
    if !is_row_of(width, row.as_slice()) {
        return Ok(false);
    }
    objects.insert_row(table, row)
}

/// Whether there is a value for each of so many columns, and a text for the key.
fn is_row_of(width: usize, row: &[Value]) -> bool
    ensures { result ≡ is_row_of width row.now }
{
    match row.first() {
        Some(key) => row.len() == width && is_text(key),
        None => false,
    }
}

fn is_text(value: &Value) -> bool
    ensures { result ≡ is_text value.now }
{
    match &value.node {
        Node::Text(_) => true,
        Node::Null | Node::Bool(_) | Node::Number(_) | Node::List(_) => false,
    }
}
