//! `script_tree`: the order of values, their sizes, and what shared parts give back.

use basis::OrMemory;
use script_tree::text::Text;
use script_tree::value::{Value, Values};
use std::alloc::{AllocError, Global};
use std::sync::Arc;
use wire::fault::Unreadable;
use wire::value_reading::read_value;

/// In their order from the least: null, false, true, the least number, -1, 10, the texts ``, `a`,
/// `ab` and `b`, the lists [], [null], [null, null] and [1].
const RISING: &[u8; 86] = b"\x00\x01\x02\x03\x80\x00\x00\x00\x00\x00\x00\x00\
    \x03\xff\xff\xff\xff\xff\xff\xff\xff\x03\x00\x00\x00\x00\x00\x00\x00\x0a\
    \x04\x00\x00\x00\x00\x04\x00\x00\x00\x01a\x04\x00\x00\x00\x02ab\x04\x00\x00\x00\x01b\
    \x05\x00\x00\x00\x00\x05\x00\x00\x00\x01\x00\x05\x00\x00\x00\x02\x00\x00\
    \x05\x00\x00\x00\x01\x03\x00\x00\x00\x00\x00\x00\x00\x01";

/// The list [7, [true, `abc`]].
const NESTED: &[u8; 28] = b"\x05\x00\x00\x00\x02\x03\x00\x00\x00\x00\x00\x00\x00\x07\
    \x05\x00\x00\x00\x02\x02\x04\x00\x00\x00\x03abc";

/// So many values, which are spelled one after another.
fn values(alloc: Global, bytes: &[u8], count: usize) -> Result<Vec<Value>, OrMemory<Unreadable>> {
    let mut values = Vec::new(alloc);
    let mut at = 0;
    for _ in 0..count {
        let (value, next) = read_value(alloc, bytes, at)?;
        values.push(value)?;
        at = next;
    }
    Ok(values)
}

fn are_rising(values: &[Value]) -> bool {
    for (i, a) in values.iter().enumerate() {
        for (j, b) in values.iter().enumerate() {
            if a.compare(b) != i.cmp(&j) {
                return false;
            }
        }
    }
    true
}

/// Whether a copy of the value is equal to it.
fn is_copied<V: Clone + Ord + Drop>(value: &V) -> bool {
    match value.clone() {
        Ok(copy) => copy == *value && copy <= *value,
        Err(_) => false,
    }
}

/// Whether the value that is spelled so has this size and this nesting.
fn measures(alloc: Global, bytes: &[u8], size: u64, nesting: u64) -> bool {
    match read_value(alloc, bytes, 0) {
        Ok((value, _)) => value.size() == size && value.nesting() == nesting && is_copied(&value),
        Err(_) => false,
    }
}

#[test]
fn values_stand_in_their_order(rt: HostRuntime) {
    match values(rt.alloc(), RISING, 14) {
        Ok(values) => assert!(rt; are_rising(values.as_slice())),
        Err(_) => assert!(rt; false),
    }
}

#[test]
fn a_value_inside_others(rt: HostRuntime) {
    assert!(rt; measures(rt.alloc(), NESTED, 8, 2));
}

/// Whether a text that has two owners gives its bytes back.
fn gives_bytes(alloc: Global, bytes: &[u8]) -> Result<bool, AllocError> {
    let shared = Arc::new(alloc, Text::from_vec(Vec::from_slice(alloc, bytes)?))?;
    let _other = shared.clone()?;
    Ok(Text::from_shared(shared)?.as_bytes() == bytes)
}

/// Whether a list that has two owners gives its member back.
fn gives_member(alloc: Global) -> Result<bool, AllocError> {
    let mut members = Vec::new(alloc);
    members.push(Value::number(7))?;
    let list = Values::from_vec(members)?;
    let _other = list.clone()?;
    let members = list.into_vec()?;
    Ok(members.len() == 1 && members[0] == Value::number(7))
}

/// What is shared is given back in a copy.
#[test]
fn shared_parts_are_given_back(rt: HostRuntime) {
    assert!(rt; gives_bytes(rt.alloc(), b"abc") == Ok(true));
    assert!(rt; gives_member(rt.alloc()) == Ok(true));
}
