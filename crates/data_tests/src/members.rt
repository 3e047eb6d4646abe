//! `multivalue`: the values that the members of a group have at one place.

use multivalue::Multi;
use script_tree::value::{Value, Values};
use std::alloc::{AllocError, Global};

/// What members have whose values are these numbers.
fn of_numbers(alloc: Global, numbers: &[i64]) -> Result<Multi, AllocError> {
    let mut values = Vec::with_capacity(alloc, numbers.len())?;
    for number in numbers {
        values.push(Value::number(*number))?;
    }
    Multi::of(Values::from_vec(values)?)
}

/// Whether a copy of it has each of these numbers at its member, and is one value if that is wanted.
fn tells(alloc: Global, numbers: &[i64], is_one: bool) -> Result<bool, AllocError> {
    let multi = of_numbers(alloc, numbers)?.clone()?;
    for (member, number) in numbers.iter().enumerate() {
        match multi.get(member) {
            Some(value) if *value == Value::number(*number) => {}
            _ => return Ok(false),
        }
    }
    Ok(multi.one().is_some() == is_one && multi.is_for(numbers.len()))
}

/// Equal values are one, for any member; others are one for each.
fn members_are_told(alloc: Global) -> Result<bool, AllocError> {
    let is_one = tells(alloc, &[7], true)? && tells(alloc, &[7, 7, 7], true)?;
    let is_each = tells(alloc, &[7, 7, 8], false)? && tells(alloc, &[], true)?;
    Ok(is_one && is_each && *Multi::all(Value::number(1)).at(9) == Value::number(1))
}

#[test]
fn members_have_their_values(rt: HostRuntime) {
    assert!(rt; members_are_told(rt.alloc()) == Ok(true));
}
