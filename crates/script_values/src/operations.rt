ghost use Rattle.std.specs.Prelude.{◌≡◌, ◌∷◌, []};
ghost use Rattle.basis.specs.UnlessMemory.{Answers};
ghost use Rattle.script_meaning.specs.Operands.{name_in, read_op, write_op, get_op, put_op};
ghost use Rattle.script_meaning.specs.Operands.{remove_op, clock_op, random_op, status_in, is_status};

use crate::faults::Faulted;
use crate::kinds::{number_in, text_in};
use basis::OrMemory;
use script_tree::fault::ScriptFault;
use script_tree::limits::{LEAST_STATUS, MOST_KEY_BYTES, MOST_STATUS};
use script_tree::operation::{Act, Object, Op};
use script_tree::text::Text;
use script_tree::value::Value;
use std::alloc::Global;

/// The name of a register, or the key of a store or a row.
pub fn name_in(value: &Value) -> Result<Text, Faulted>
    ensures { Answers (λ name. name) (name_in value.now) result }
{
    let text: &Text = text_in(value)?;
    if text.len() > MOST_KEY_BYTES {
        return Err(OrMemory::Other(ScriptFault::TooLarge));
    }
    Ok(text.clone()?)
}

pub fn read_op(name: &Value) -> Result<Op, Faulted>
    ensures { Answers (λ op. op) (read_op (name.now ∷ [])) result }
{
    Ok(Op {
        object: Object::Register(name_in(name)?),
        act: Act::Read,
    })
}

pub fn write_op(name: &Value, value: &Value) -> Result<Op, Faulted>
    ensures { Answers (λ op. op) (write_op (name.now ∷ value.now ∷ [])) result }
{
    Ok(Op {
        object: Object::Register(name_in(name)?),
        act: Act::Write(value.clone()?),
    })
}

pub fn get_op(alloc: Global, store: &[u8], key: &Value) -> Result<Op, Faulted>
    ensures { Answers (λ op. op) (get_op store.now (key.now ∷ [])) result }
{
    let key = name_in(key)?;
    Ok(Op {
        object: Object::Store(Text::from_vec(store.to_vec(alloc)?)),
        act: Act::Get(key),
    })
}

pub fn put_op(alloc: Global, store: &[u8], key: &Value, value: &Value) -> Result<Op, Faulted>
    ensures { Answers (λ op. op) (put_op store.now (key.now ∷ value.now ∷ [])) result }
{
    let key = name_in(key)?;
    Ok(Op {
        object: Object::Store(Text::from_vec(store.to_vec(alloc)?)),
        act: Act::Put(key, value.clone()?),
    })
}

pub fn remove_op(alloc: Global, store: &[u8], key: &Value) -> Result<Op, Faulted>
    ensures { Answers (λ op. op) (remove_op store.now (key.now ∷ [])) result }
{
    let key = name_in(key)?;
    Ok(Op {
        object: Object::Store(Text::from_vec(store.to_vec(alloc)?)),
        act: Act::Remove(key),
    })
}

pub fn clock_op() -> Op
    ensures { clock_op ≡ Ok result }
{
    Op {
        object: Object::Clock,
        act: Act::Now,
    }
}

pub fn random_op(bound: &Value) -> Result<Op, Faulted>
    ensures { Answers (λ op. op) (random_op (bound.now ∷ [])) result }
{
    let bound = number_in(bound)?;
    if bound < 1 {
        return Err(OrMemory::Other(ScriptFault::BadBound));
    }
    Ok(Op {
        object: Object::Dice,
        act: Act::Roll(bound),
    })
}

/// The status that a value is.
pub fn status_in(value: &Value) -> Result<u16, Faulted>
    ensures { Answers (λ status. status) (status_in value.now) result }
{
    let number = number_in(value)?;
    match u16::try_from(number) {
        Ok(status) if is_status(status) => Ok(status),
        Ok(_) | Err(_) => Err(OrMemory::Other(ScriptFault::OutOfRange)),
    }
}

/// Whether a response may have it. Three of the statuses forbid a body.
fn is_status(status: u16) -> bool
    ensures { result ≡ is_status status }
{
    status >= LEAST_STATUS && status <= MOST_STATUS && !matches!(status, 204 | 205 | 304)
}
