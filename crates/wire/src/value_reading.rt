ghost use Rattle.std.specs.Prelude.{ℕ, ◌+◌, ◌≤◌};
ghost use Rattle.wire.specs.Spellings.{TakesField, value_field};
ghost use Rattle.wire.specs.ValueReadings.{GivesValue, GivesTail};

use crate::fault::Unreadable;
use crate::field::{read_bytes, read_i64, read_u8, read_u32};
use basis::OrMemory;
use script_tree::limits::{MOST_VALUE_NESTING, MOST_VALUE_SIZE};
use script_tree::text::Text;
use script_tree::value::{Value, Values};
use std::alloc::Global;

/// A value that was read, the place behind it, and how much larger it might have been.
#[derive(Drop)]
struct Part {
    value: Value,
    next: usize,
    room: u64,
}

/// It reads no deeper and no further than the limits of a value, whatever counts are there.
pub fn read_value(
    alloc: Global,
    bytes: &[u8],
    at: usize,
) -> Result<(Value, usize), OrMemory<Unreadable>>
    ensures { TakesField (λ d. d) value_field bytes.now at result }
{
    match read_any(alloc, bytes, at, MOST_VALUE_NESTING, MOST_VALUE_SIZE) {
        Ok(part) => Ok((part.value, part.next)),
        Err(OrMemory::Memory) => Err(OrMemory::Memory),
        Err(OrMemory::Other(_)) => Err(OrMemory::Other(Unreadable { at })),
    }
}

/// The value at a place, of at most this nesting and this size.
#[cycle(read_any)]
fn read_any(
    alloc: Global,
    bytes: &[u8],
    at: usize,
    depth: u64,
    room: u64,
) -> Result<Part, OrMemory<Unreadable>>
    requires { room ≤ MOST_VALUE_SIZE }
    ensures { GivesValue depth room bytes.now at result }
{
    let (tag, next) = read_u8(bytes, at)?;
    let Some(left) = room.checked_sub(1) else {
        return Err(OrMemory::Other(Unreadable { at }));
    };
    match tag {
        0 => Ok(Part {
            value: Value::null(),
            next,
            room: left,
        }),
        1 => Ok(Part {
            value: Value::bool(false),
            next,
            room: left,
        }),
        2 => Ok(Part {
            value: Value::bool(true),
            next,
            room: left,
        }),
        3 => read_number(bytes, next, left),
        4 => read_text(alloc, bytes, next, left),
        5 => read_list(alloc, bytes, next, depth, left),
        _ => Err(OrMemory::Other(Unreadable { at })),
    }
}

/// The number behind its tag.
fn read_number(bytes: &[u8], at: usize, room: u64) -> Result<Part, OrMemory<Unreadable>>
    ensures { (depth : ℕ) → GivesTail 3 depth (room + 1) bytes.now at result }
{
    let (number, next) = read_i64(bytes, at)?;
    Ok(Part {
        value: Value::number(number),
        next,
        room,
    })
}

/// The text behind its tag.
fn read_text(
    alloc: Global,
    bytes: &[u8],
    at: usize,
    room: u64,
) -> Result<Part, OrMemory<Unreadable>>
    requires { room ≤ MOST_VALUE_SIZE }
    ensures { (depth : ℕ) → GivesTail 4 depth (room + 1) bytes.now at result }
{
    let (text, next) = read_bytes(bytes, at)?;
    let Some(left) = room.checked_sub(text.len() as u64) else {
        return Err(OrMemory::Other(Unreadable { at }));
    };
    let text = Text::from_vec(Vec::from_slice(alloc, text)?);
    let value = Value::text(alloc, text)?;
    Ok(Part {
        value,
        next,
        room: left,
    })
}

/// The list behind its tag.
#[cycle(read_any)]
fn read_list(
    alloc: Global,
    bytes: &[u8],
    at: usize,
    depth: u64,
    room: u64,
) -> Result<Part, OrMemory<Unreadable>>
    requires { room ≤ MOST_VALUE_SIZE }
    ensures { GivesTail 5 depth (room + 1) bytes.now at result }
{
    let Some(below) = depth.checked_sub(1) else {
        return Err(OrMemory::Other(Unreadable { at }));
    };
    let (count, next) = read_u32(bytes, at)?;
    let mut values = Vec::new(alloc);
    let mut place = next;
    let mut left = room;
    for _ in 0..count {
        let part = read_any(alloc, bytes, place, below, left)?;
        values.push(part.value)?;
        place = part.next;
        left = part.room;
    }
    let members = Values::from_vec(values)?;
    Ok(Part {
        value: Value::list(members),
        next: place,
        room: left,
    })
}
