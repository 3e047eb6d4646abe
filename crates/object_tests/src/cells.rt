//! Registers and stores: a value stands under its key until it is removed, and stays in a copy.

use crate::programs::{program, text};
use object_cells::{Registers, Stores};
use script_tree::value::Value;
use std::alloc::{AllocError, Global};

/// Registers of which `a` holds 1.
fn registers(alloc: Global) -> Result<Registers, AllocError> {
    let mut registers = Registers::new(alloc);
    registers.put(text(alloc, b"a")?, Value::number(1))?;
    Ok(registers)
}

fn registers_keep(alloc: Global) -> Result<bool, AllocError> {
    let mut registers = registers(alloc)?;
    let copy: Result<_, AllocError> = registers.clone();
    let keep = match copy {
        Ok(copy) => {
            let keep = register_is_removed(alloc, &mut registers, &copy);
            drop(copy);
            keep
        }
        Err(AllocError) => Err(AllocError),
    };
    drop(registers);
    keep
}

/// Whether the register is gone where it is removed, and still in the copy.
fn register_is_removed(
    alloc: Global,
    registers: &mut Registers,
    copy: &Registers,
) -> Result<bool, AllocError> {
    let key = text(alloc, b"a")?;
    registers.remove(&key);
    let is_gone = registers.get(&key)? == Value::null() && registers.iter().next().is_none();
    Ok(is_gone && copy.get(&key)? == Value::number(1) && copy.iter().next().is_some())
}

#[test]
fn a_register_has_a_value_until_it_is_removed(rt: HostRuntime) {
    assert!(rt; registers_keep(rt.alloc()).unwrap_or(false));
}

/// The stores `s` and `r`, of which `s` holds true under `k`.
fn stores(alloc: Global) -> Result<Stores, AllocError> {
    let program = program(alloc, b"store s; table t (k); store r;")?;
    let stores = Stores::new(alloc, program.declarations());
    drop(program);
    let mut stores = stores?;
    match put_true(alloc, &mut stores) {
        Ok(()) => Ok(stores),
        Err(AllocError) => {
            drop(stores);
            Err(AllocError)
        }
    }
}

/// Puts true under `k` of the store `s`, where it is there.
fn put_true(alloc: Global, stores: &mut Stores) -> Result<(), AllocError> {
    let name = text(alloc, b"s")?;
    if stores.has(&name) {
        stores.put(&name, text(alloc, b"k")?, Value::bool(true))?;
    }
    Ok(())
}

/// Whether the store of this name holds true under `k`.
fn holds(alloc: Global, stores: &Stores, name: &[u8]) -> Result<bool, AllocError> {
    let name = text(alloc, name)?;
    let key = text(alloc, b"k")?;
    Ok(stores.get(&name, &key)? == Value::bool(true) && stores.store(&name).is_some())
}

fn stores_keep(alloc: Global) -> Result<bool, AllocError> {
    let mut stores = stores(alloc)?;
    let copy: Result<_, AllocError> = stores.clone();
    let keep = match copy {
        Ok(copy) => {
            let keep = cell_is_removed(alloc, &mut stores, &copy);
            drop(copy);
            keep
        }
        Err(AllocError) => Err(AllocError),
    };
    drop(stores);
    keep
}

/// Whether the cell is gone where it is removed, and still in the copy, of that store alone.
fn cell_is_removed(alloc: Global, stores: &mut Stores, copy: &Stores) -> Result<bool, AllocError> {
    stores.remove(&text(alloc, b"s")?, &text(alloc, b"k")?);
    let is_there = holds(alloc, copy, b"s")? && !holds(alloc, copy, b"r")?;
    Ok(is_there && !holds(alloc, stores, b"s")?)
}

#[test]
fn each_store_holds_its_own(rt: HostRuntime) {
    assert!(rt; stores_keep(rt.alloc()).unwrap_or(false));
}
