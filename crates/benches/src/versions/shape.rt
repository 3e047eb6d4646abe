//! Large logs for the bench, of an object or of many.
use crate::records::{
    begin_entry, end_entry, put_read, put_register, put_tables, put_text, report,
};
use std::alloc::{AllocError, Global};

/// What a made log is like.
#[derive(Clone, Copy)]
pub enum Shape {
    /// Writes and reads of one register.
    Register,
    /// A write and a read of each of many registers, each with a log of its own.
    Registers,
    /// Transactions, each a select and an update of one row by its key, in the order of the keys.
    Rows,
    /// The same in no order.
    RowsAtRandom,
    /// Selects of the same rows, between a few updates.
    Same,
    /// Selects of a row each, and no update.
    Different,
}

/// An act that is a write of a number, before the number.
const WRITE: &[u8] = b"\x02\x03";

/// A transaction of one part, and of two.
const TRANSACT: &[u8] = b"\x06\0\0\0\x01";

const TRANSACT_TWO: &[u8] = b"\x06\0\0\0\x02";

/// A select of the second column of the first table, without its tests.
const SELECT: &[u8] = b"\x02\0\0\0\0\0\0\0\x01\0\0\0\x01";

/// An update of this column by a number, before the number.
const UPDATE: &[u8] = b"\x03\0\0\0\0\0\0\0\x01\0\0\0\x01\x03";

/// No test, and a test of one key, before the key.
const NO_TEST: &[u8] = b"\0\0\0\0";

const TEST: &[u8] = b"\0\0\0\x01\0\0\0\0\x01\x04";

impl Shape {
    pub fn from_word(word: &str) -> Option<Shape> {
        match word {
            "register" => Some(Shape::Register),
            "registers" => Some(Shape::Registers),
            "rows" => Some(Shape::Rows),
            "rows_at_random" => Some(Shape::RowsAtRandom),
            "same" => Some(Shape::Same),
            "different" => Some(Shape::Different),
            _ => None,
        }
    }

    /// How many rows the table has.
    fn rows(self) -> u32 {
        match self {
            Shape::Register | Shape::Registers => 0,
            Shape::Rows | Shape::RowsAtRandom | Shape::Different => 100_000,
            Shape::Same => 1_000,
        }
    }

    /// The key of a row: its number, or one that tells nothing of the number's order.
    fn key(self, alloc: Global, number: u32) -> Result<String, AllocError> {
        let key = match self {
            Shape::Register | Shape::Registers | Shape::Rows | Shape::Same => number,
            Shape::RowsAtRandom | Shape::Different => number.wrapping_mul(0x9e37_79b1),
        };
        format!(in alloc; "{key:08x}")
    }

    /// The state that the logs start with.
    pub fn state(self, alloc: Global) -> Result<String, AllocError> {
        let mut state = String::from_str(alloc, "{\"tables\":{\"t\":[")?;
        let mut comma = "";
        for number in 0..self.rows() {
            let key = self.key(alloc, number)?;
            state.push_str(format!(in alloc; "{comma}[\"{key}\",{number}]")?.as_str())?;
            comma = ",";
        }
        state.push_str("]}}")?;
        Ok(state)
    }

    /// The report of the logs of so many entries.
    pub fn report(self, alloc: Global, count: u32) -> Result<Vec<u8>, AllocError> {
        let mut records = report(alloc)?;
        match self {
            Shape::Registers => put_registers(alloc, &mut records, count)?,
            Shape::Register => put_one_register(alloc, &mut records, count)?,
            Shape::Rows | Shape::RowsAtRandom | Shape::Same | Shape::Different => {
                put_transactions(alloc, &mut records, self, count)?
            }
        }
        Ok(records)
    }
}

/// The log of one register.
fn put_one_register(alloc: Global, records: &mut Vec<u8>, count: u32) -> Result<(), AllocError> {
    let mut entries = Vec::new(alloc);
    for number in 0..count {
        put_cell_entry(&mut entries, number)?;
    }
    put_register(records, "r", count as usize, &entries)
}

/// A log of two entries of each register.
fn put_registers(alloc: Global, records: &mut Vec<u8>, count: u32) -> Result<(), AllocError> {
    for number in 0..count / 2 {
        let name = format!(in alloc; "{number:08x}")?;
        put_pair(alloc, records, name.as_str())?;
    }
    Ok(())
}

fn put_pair(alloc: Global, records: &mut Vec<u8>, name: &str) -> Result<(), AllocError> {
    let mut entries = Vec::new(alloc);
    put_cell_entry(&mut entries, 0)?;
    put_cell_entry(&mut entries, 1)?;
    put_register(records, name, 2, &entries)
}

/// An entry of a register, by its number: writes and reads take turns.
fn put_cell_entry(entries: &mut Vec<u8>, number: u32) -> Result<(), AllocError> {
    if number % 2 == 0 {
        put_write(entries, number)
    } else {
        put_read(entries, 0, 1)
    }
}

fn put_write(entries: &mut Vec<u8>, number: u32) -> Result<(), AllocError> {
    begin_entry(entries, 0, 1)?;
    entries.extend_from_slice(WRITE)?;
    put_number(entries, number)?;
    end_entry(entries)
}

/// The log of the tables.
fn put_transactions(
    alloc: Global,
    records: &mut Vec<u8>,
    shape: Shape,
    count: u32,
) -> Result<(), AllocError> {
    let mut entries = Vec::new(alloc);
    for number in 0..count {
        let key = shape.key(alloc, number % shape.rows().max(1))?;
        let changes = number % (count / 64).max(1) == 0;
        put_transaction(&mut entries, shape, key.as_str(), number, changes)?;
    }
    put_tables(records, count as usize, &entries)
}

/// An entry of the tables: its act, on the row of this key.
fn put_transaction(
    entries: &mut Vec<u8>,
    shape: Shape,
    key: &str,
    number: u32,
    changes: bool,
) -> Result<(), AllocError> {
    begin_entry(entries, 0, 1)?;
    match shape {
        Shape::Rows | Shape::RowsAtRandom => put_select_and_update(entries, key, number)?,
        Shape::Same if changes => put_one_update(entries, key, number)?,
        Shape::Same => put_select_of_all(entries)?,
        Shape::Different | Shape::Register | Shape::Registers => put_one_select(entries, key)?,
    }
    end_entry(entries)
}

fn put_select_and_update(entries: &mut Vec<u8>, key: &str, number: u32) -> Result<(), AllocError> {
    entries.extend_from_slice(TRANSACT_TWO)?;
    put_select(entries, key)?;
    put_update(entries, key, number)
}

fn put_one_update(entries: &mut Vec<u8>, key: &str, number: u32) -> Result<(), AllocError> {
    entries.extend_from_slice(TRANSACT)?;
    put_update(entries, key, number)
}

fn put_one_select(entries: &mut Vec<u8>, key: &str) -> Result<(), AllocError> {
    entries.extend_from_slice(TRANSACT)?;
    put_select(entries, key)
}

fn put_select_of_all(entries: &mut Vec<u8>) -> Result<(), AllocError> {
    entries.extend_from_slice(TRANSACT)?;
    entries.extend_from_slice(SELECT)?;
    entries.extend_from_slice(NO_TEST)
}

fn put_select(entries: &mut Vec<u8>, key: &str) -> Result<(), AllocError> {
    entries.extend_from_slice(SELECT)?;
    entries.extend_from_slice(TEST)?;
    put_text(entries, key)
}

fn put_update(entries: &mut Vec<u8>, key: &str, number: u32) -> Result<(), AllocError> {
    entries.extend_from_slice(UPDATE)?;
    put_number(entries, number)?;
    entries.extend_from_slice(TEST)?;
    put_text(entries, key)
}

/// A number of a value, in eight bytes.
fn put_number(entries: &mut Vec<u8>, number: u32) -> Result<(), AllocError> {
    entries.extend_from_slice(&u64::from(number).to_be_bytes())
}
