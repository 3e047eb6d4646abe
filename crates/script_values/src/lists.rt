ghost use Rattle.std.specs.Prelude.{◌≡◌, ◌∷◌, ◌++◌, List, IfOk};
ghost use Rattle.basis.specs.UnlessMemory.{Answers};
ghost use Rattle.script_tree.specs.Datum.{list, data_of};
ghost use Rattle.script_meaning.specs.Operators.{plus, listed, at_place, part, appended, part_of};

use crate::faults::{Faulted, if_within_limits};
use crate::kinds::list_in;
use basis::OrMemory;
use script_tree::fault::ScriptFault;
use script_tree::value::{Value, Values};
use std::alloc::{AllocError, Global};

/// The list of these values.
pub fn listed(values: Vec<Value>) -> Result<Value, Faulted>
    ensures { Answers (λ v. v) (listed values.items) result }
{
    if_within_limits(Value::list(Values::from_vec(values)?))
}

/// The values of a list, and behind them those of a value that is to be a list. A list that nobody
/// else has grows where it lies.
pub fn joined_lists(values: Values, b: &Value) -> Result<Value, Faulted>
    ensures { Answers (λ v. v) (plus (list (data_of values)) b.now) result }
{
    let others = list_in(b)?;
    let mut all = values.into_vec()?;
    for value in others.as_slice() {
        all.push(value.clone()?)?;
    }
    listed(all)
}

/// A list with one value more.
pub fn appended(alloc: Global, a: &Value, value: &Value) -> Result<Value, Faulted>
    ensures { Answers (λ v. v) (appended a.now value.now) result }
{
    let mut all = copied(alloc, list_in(a)?.as_slice())?;
    all.push(value.clone()?)?;
    listed(all)
}

/// The part of a list between two places.
pub fn list_part(alloc: Global, values: &Values, from: i64, to: i64) -> Result<Value, Faulted>
    ensures { Answers (λ v. v) (part_of (list (data_of values.now)) from to) result }
{
    listed(copied(alloc, part(values.as_slice(), from, to)?)?)
}

/// The same values.
pub fn copied(alloc: Global, values: &[Value]) -> Result<Vec<Value>, AllocError>
    ensures { IfOk result (λ copies. copies.items ≡ values.now) }
{
    let mut copies = Vec::with_capacity(alloc, values.len())?;
    for value in values {
        copies.push(value.clone()?)?;
    }
    Ok(copies)
}

/// What stands at a place.
pub fn at_place<T>(items: &[T], place: i64) -> Result<&T, Faulted>
    ensures { Answers (λ item. item.now) (at_place items.now place) result }
{
    if place < 0 {
        return Err(OrMemory::Other(ScriptFault::OutOfRange));
    }
    match items.get(place as usize) {
        Some(item) => Ok(item),
        None => Err(OrMemory::Other(ScriptFault::OutOfRange)),
    }
}

/// What stands from one place to before another.
pub fn part<T>(items: &[T], from: i64, to: i64) -> Result<&[T], Faulted>
    ensures { Answers (λ part. part.now) (part items.now from to) result }
{
    if from < 0 || to < from {
        return Err(OrMemory::Other(ScriptFault::OutOfRange));
    }
    let (from, to) = (from as usize, to as usize);
    if to > items.len() {
        return Err(OrMemory::Other(ScriptFault::OutOfRange));
    }
    Ok(&items[from..to])
}
