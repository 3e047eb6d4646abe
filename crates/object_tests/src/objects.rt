//! All objects of a program, as the file of a state gives them.

use crate::programs::{program, text};
use crate::tables::row_count;
use object_set::ObjectSet;
use script_tree::value::Value;
use state_file::read_state;
use std::alloc::{AllocError, Global};

const PROGRAM: &[u8] = b"store s; table t (k);";

const STATE: &[u8] =
    b"{\"clock\":7,\"registers\":[[\"r\",true]],\"stores\":{\"s\":[[\"k\",1]]},\"tables\":{\"t\":[[\"a\"]]}}";

fn state(alloc: Global) -> Result<ObjectSet, AllocError> {
    let program = program(alloc, PROGRAM)?;
    let read = read_state(alloc, &program, STATE);
    drop(program);
    match read {
        Ok(objects) => Ok(objects),
        Err(_) => Err(AllocError),
    }
}

fn has_register(alloc: Global, objects: &ObjectSet) -> Result<bool, AllocError> {
    Ok(objects.registers().get(&text(alloc, b"r")?)? == Value::bool(true))
}

fn has_cell(alloc: Global, objects: &ObjectSet) -> Result<bool, AllocError> {
    let name = text(alloc, b"s")?;
    let Some(store) = objects.store(&name) else {
        return Ok(false);
    };
    Ok(store.get(&text(alloc, b"k")?)? == Value::number(1))
}

fn has_all(alloc: Global) -> Result<bool, AllocError> {
    let objects = state(alloc)?;
    let copy: Result<_, AllocError> = objects.clone();
    drop(objects);
    let copy = copy?;
    let has_all = holds_all(alloc, &copy);
    drop(copy);
    has_all
}

fn holds_all(alloc: Global, objects: &ObjectSet) -> Result<bool, AllocError> {
    let has_stored = has_register(alloc, objects)? && has_cell(alloc, objects)?;
    Ok(has_stored && row_count(objects.tables()) == 1 && objects.clock() == 7)
}

#[test]
fn a_state_is_stored(rt: HostRuntime) {
    assert!(rt; has_all(rt.alloc()).unwrap_or(false));
}
