//! `wire`: numbers as docs/formats.md spells them, and values with the limit of their nesting.

use basis::OrMemory;
use script_tree::operation::Choice;
use script_tree::value::Value;
use std::alloc::{AllocError, Global};
use wire::fault::Unreadable;
use wire::value_reading::read_value;
use wire::value_writing::write_value;
use wire::writing::{write_choice, write_i64, write_u64};

fn numbers_written(alloc: Global) -> Result<Vec<u8>, AllocError> {
    let mut out = Vec::new(alloc);
    write_choice(&mut out, Choice::Number(-2))?;
    write_choice(&mut out, Choice::Nothing)?;
    write_u64(&mut out, 258)?;
    write_i64(&mut out, 1)?;
    Ok(out)
}

fn is_written(written: Result<Vec<u8>, AllocError>, bytes: &[u8]) -> bool {
    match written {
        Ok(out) => out.as_slice() == bytes,
        Err(_) => false,
    }
}

#[test]
fn written_numbers(rt: HostRuntime) {
    let bytes = b"\x01\xff\xff\xff\xff\xff\xff\xff\xfe\x00\
        \x00\x00\x00\x00\x00\x00\x01\x02\x00\x00\x00\x00\x00\x00\x00\x01";
    assert!(rt; is_written(numbers_written(rt.alloc()), bytes));
}

/// Whether these bytes are read as a value, which is written as they are.
fn is_value(alloc: Global, bytes: &[u8]) -> Result<bool, OrMemory<Unreadable>> {
    let (value, next) = read_value(alloc, bytes, 0)?;
    let mut out = Vec::new(alloc);
    write_value(&mut out, &value)?;
    Ok(out.as_slice() == bytes && next == bytes.len())
}

/// The spelling of null inside so many lists of one member.
fn nested(alloc: Global, depth: usize) -> Result<Vec<u8>, AllocError> {
    let mut bytes = Vec::new(alloc);
    for _ in 0..depth {
        bytes.extend_from_slice(b"\x05\x00\x00\x00\x01")?;
    }
    bytes.push(0)?;
    Ok(bytes)
}

fn is_nested_value(alloc: Global, depth: usize) -> Result<bool, OrMemory<Unreadable>> {
    let bytes = nested(alloc, depth)?;
    is_value(alloc, bytes.as_slice())
}

#[test]
fn values_and_their_nesting(rt: HostRuntime) {
    let number = b"\x03\x00\x00\x00\x00\x00\x00\x00\x01";
    let fault = Err(OrMemory::Other(Unreadable { at: 0 }));
    assert!(rt; is_value(rt.alloc(), number) == Ok(true));
    assert!(rt; is_value(rt.alloc(), b"\x06") == fault);
    assert!(rt; is_nested_value(rt.alloc(), 16) == Ok(true));
    assert!(rt; is_nested_value(rt.alloc(), 17) == fault);
}
