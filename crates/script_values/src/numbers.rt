ghost use Rattle.std.specs.Prelude.{◌≡◌, ◌<◌, ◌^◌, pos, neg_ℤ, IfOk, SomeIff};
ghost use Rattle.basis.specs.UnlessMemory.{Answers};
ghost use Rattle.script_meaning.specs.Operators.{as_number, number_of, digits_value, if_printed};

use crate::faults::Faulted;
use crate::kinds::text_in;
use script_tree::value::Value;
use std::alloc::{AllocError, Global};

/// The number that prints as a text, or null where none does.
pub fn as_number(alloc: Global, value: &Value) -> Result<Value, Faulted>
    ensures { Answers (λ v. v) (as_number value.now) result }
{
    Ok(number_of(alloc, text_in(value)?.as_bytes())?)
}

fn number_of(alloc: Global, bytes: &[u8]) -> Result<Value, AllocError>
    ensures { IfOk result (λ v. v ≡ number_of bytes.now) }
{
    match bytes.split_first() {
        None => Ok(Value::null()),
        Some((first, rest)) => {
            if *first == b'-' {
                below_zero(alloc, rest, bytes)
            } else {
                from_zero(alloc, bytes)
            }
        }
    }
}

/// The number of these digits, where it prints as they stand.
fn from_zero(alloc: Global, digits: &[u8]) -> Result<Value, AllocError>
    ensures { IfOk result (λ v. v ≡ if_printed (pos (digits_value 0 digits.now)) digits.now) }
{
    match digits_value(digits) {
        Some(n) if n <= i64::MAX as u64 => if_printed(alloc, n as i64, digits),
        _ => Ok(Value::null()),
    }
}

/// The number below zero of these digits, where it prints as these bytes.
fn below_zero(alloc: Global, digits: &[u8], bytes: &[u8]) -> Result<Value, AllocError>
    ensures { IfOk result
        (λ v. v ≡ if_printed (neg_ℤ (pos (digits_value 0 digits.now))) bytes.now) }
{
    match digits_value(digits) {
        Some(0) => if_printed(alloc, 0, bytes),
        Some(n) if n - 1 <= i64::MAX as u64 => if_printed(alloc, -((n - 1) as i64) - 1, bytes),
        _ => Ok(Value::null()),
    }
}

/// The value of digits, where 64 bits hold it.
fn digits_value(digits: &[u8]) -> Option<u64>
    ensures { SomeIff result (digits_value 0 digits.now < 2 ^ 64) (digits_value 0 digits.now) }
{
    let mut value = 0u64;
    for digit in digits {
        value = value
            .checked_mul(10)?
            .checked_add(u64::from(digit.saturating_sub(b'0')))?;
    }
    Some(value)
}

fn if_printed(alloc: Global, number: i64, bytes: &[u8]) -> Result<Value, AllocError>
    ensures { IfOk result (λ v. v ≡ if_printed number bytes.now) }
{
    let printed = number.to_string(alloc)?;
    if printed.as_bytes() == bytes {
        Ok(Value::number(number))
    } else {
        Ok(Value::null())
    }
}
