ghost use Rattle.std.specs.Prelude.{◌≡◌, IfOk, OnOk, None};
ghost use Rattle.std.specs.Option.{option_copied};
ghost use Rattle.script_tree.specs.Objects.{acted, one};
ghost use Rattle.script_tree.specs.declared.operation.Choice.{Choice as AnyChoice};
ghost use Rattle.object_cells.specs.Cells.{held};
ghost use Rattle.versioned_cells.specs.Versions.{as_of, AreUntil};
ghost use Rattle.versioned_cells.specs.Logs.{TellsRegister, Begins, Writes};

use crate::history::History;
use crate::position::next_position;
use object_cells::Registers;
use period::report::LogEntry;
use script_tree::operation::Act;
use script_tree::text::Text;
use script_tree::value::Value;
use std::alloc::{AllocError, Global};

/// What a register held over time, by its start and its log.
pub fn register_history(
    alloc: Global,
    registers: &Registers,
    name: &Text,
    entries: &[LogEntry],
) -> Result<History<Value>, AllocError>
    ensures { IfOk result (TellsRegister entries.now (held registers.now name.now)) }
{
    let mut history = begun(alloc, registers, name)?;
    let mut since = 0u32;
    for entry in entries {
        since = next_position(since)?;
        note_act(&mut history, since, &entry.act)?;
    }
    Ok(history)
}

fn begun(alloc: Global, registers: &Registers, name: &Text) -> Result<History<Value>, AllocError>
    ensures { IfOk result (Begins (held registers.now name.now)) }
{
    Ok(History::begun(alloc, 0, copied(registers.find(name))?))
}

/// A copy of a value, where there is one.
fn copied(value: Option<&Value>) -> Result<Option<Value>, AllocError>
    ensures { IfOk result (λ copy. copy ≡ option_copied value.entry) }
{
    match value {
        Some(value) => Ok(Some(value.clone()?)),
        None => Ok(None),
    }
}

fn note_act(history: &mut History<Value>, since: u32, act: &Act) -> Result<(), AllocError>
    requires { AreUntil since history.old }
    ensures { OnOk result (Writes since act.now history.old history.new) }
{
    match act {
        Act::Write(value) => history.note(since, Some(value.clone()?)),
        Act::Read
        | Act::Get(_)
        | Act::Put(_, _)
        | Act::Remove(_)
        | Act::Transact(_)
        | Act::Now
        | Act::Roll(_) => Ok(()),
    }
}

/// The answer of an act at a position.
#[tactic(auto, unfolding(script_tree::specs::Objects::acted))]
pub fn register_answer(
    history: &History<Value>,
    position: u32,
    act: &Act,
) -> Result<Value, AllocError>
    ensures { (choice : AnyChoice) →
        IfOk result (λ d. d ≡ (acted act.now choice (one (as_of position None history.now))).1) }
{
    match act {
        Act::Read => match history.at(position) {
            Some(value) => value.clone(),
            None => Ok(Value::null()),
        },
        Act::Write(_)
        | Act::Get(_)
        | Act::Put(_, _)
        | Act::Remove(_)
        | Act::Transact(_)
        | Act::Now
        | Act::Roll(_) => Ok(Value::null()),
    }
}
