ghost use Rattle.std.specs.Prelude.{◌≡◌, IfOk, OnOk, None};
ghost use Rattle.script_tree.specs.Objects.{acted, many};
ghost use Rattle.script_tree.specs.declared.operation.Choice.{Choice as AnyChoice};
ghost use Rattle.object_cells.specs.Cells.{held};
ghost use Rattle.versioned_cells.specs.Versions.{held_at, AreAllUntil};
ghost use Rattle.versioned_cells.specs.Logs.{TellsStore, BeginsStore, Stores};

use crate::histories::Histories;
use crate::position::next_position;
use object_cells::Store;
use period::report::LogEntry;
use script_tree::operation::Act;
use script_tree::text::Text;
use script_tree::value::Value;
use std::alloc::{AllocError, Global};

/// What stood under the keys of a store over time, by its start and its log.
pub fn store_histories(
    alloc: Global,
    store: &Store,
    entries: &[LogEntry],
) -> Result<Histories<Value>, AllocError>
    ensures { IfOk result (TellsStore entries.now (held store.now)) }
{
    let mut histories = begun(alloc, store)?;
    let mut since = 0u32;
    for entry in entries {
        since = next_position(since)?;
        note_act(&mut histories, alloc, since, &entry.act)?;
    }
    Ok(histories)
}

fn begun(alloc: Global, store: &Store) -> Result<Histories<Value>, AllocError>
    ensures { IfOk result (BeginsStore (held store.now)) }
{
    let mut histories = Histories::new(alloc);
    for (key, value) in store.iter() {
        histories.note(alloc, key, 0, Some(value.clone()?))?;
    }
    Ok(histories)
}

fn note_act(
    histories: &mut Histories<Value>,
    alloc: Global,
    since: u32,
    act: &Act,
) -> Result<(), AllocError>
    requires { AreAllUntil since histories.old }
    ensures { OnOk result (Stores since act.now histories.old histories.new) }
{
    match act {
        Act::Put(key, value) => histories.note(alloc, key, since, Some(value.clone()?)),
        Act::Remove(key) => histories.note(alloc, key, since, None),
        Act::Read | Act::Write(_) | Act::Get(_) | Act::Transact(_) | Act::Now | Act::Roll(_) => Ok(
            (),
        ),
    }
}

/// The answer of an act at a position.
#[tactic(auto, unfolding(script_tree::specs::Objects::acted))]
pub fn store_answer(
    histories: &Histories<Value>,
    position: u32,
    act: &Act,
) -> Result<Value, AllocError>
    ensures { (choice : AnyChoice) →
        IfOk result (λ d. d ≡ (acted act.now choice (many (held_at position histories.now))).1) }
{
    match act {
        Act::Get(key) => match histories.at(position, key) {
            Some(value) => value.clone(),
            None => Ok(Value::null()),
        },
        Act::Read
        | Act::Write(_)
        | Act::Put(_, _)
        | Act::Remove(_)
        | Act::Transact(_)
        | Act::Now
        | Act::Roll(_) => Ok(Value::null()),
    }
}
