//! Traces and reports that are made record by record, as docs/formats.md says.
use std::alloc::{AllocError, Global};

/// The record of a request GET `/a` before its id and behind it.
const REQUEST: (&[u8], &[u8]) = (
    b"\0\0\0\x1a\x01",
    b"\0\0\0\x03GET\0\0\0\x02/a\0\0\0\0\0\0\0\0",
);

/// The same of a response of status 200 without a body.
const RESPONSE: (&[u8], &[u8]) = (b"\0\0\0\x0b\x02", b"\0\xc8\0\0\0\0");

/// The same of a group of one request.
const GROUP: (&[u8], &[u8]) = (b"\0\0\0\x09\x03\0\0\0\x01", b"");

/// The record of a count before its numbers.
const COUNT: &[u8] = b"\0\0\0\x09\x01";

/// What a log begins with, the word for a register, and that for the tables.
const LOG: u8 = 2;

const REGISTER: u8 = 1;

const TABLES: u8 = 3;

/// How many bytes of a log's payload are neither of its object nor of its entries.
const LOG_BYTES: usize = 5;

/// How many bytes of a register stand before its name.
const REGISTER_BYTES: usize = 5;

/// The act of a read.
const READ: u8 = 1;

/// The file of a trace without events.
pub fn trace(alloc: Global) -> Result<Vec<u8>, AllocError> {
    Vec::from_slice(alloc, b"SSCOTRC1")
}

/// The file of a report that says nothing.
pub fn report(alloc: Global) -> Result<Vec<u8>, AllocError> {
    Vec::from_slice(alloc, b"SSCORPT1")
}

/// A request arrives.
pub fn put_request(trace: &mut Vec<u8>, rid: u32) -> Result<(), AllocError> {
    put_record(trace, REQUEST, rid)
}

/// A request is answered.
pub fn put_response(trace: &mut Vec<u8>, rid: u32) -> Result<(), AllocError> {
    put_record(trace, RESPONSE, rid)
}

/// A group of one request.
pub fn put_group(report: &mut Vec<u8>, rid: u32) -> Result<(), AllocError> {
    put_record(report, GROUP, rid)
}

fn put_record(
    file: &mut Vec<u8>,
    (before, behind): (&[u8], &[u8]),
    rid: u32,
) -> Result<(), AllocError> {
    file.extend_from_slice(before)?;
    file.extend_from_slice(&rid.to_be_bytes())?;
    file.extend_from_slice(behind)
}

/// How many operations a request issued.
pub fn put_count(report: &mut Vec<u8>, rid: u32, operations: u32) -> Result<(), AllocError> {
    put_record(report, (COUNT, &operations.to_be_bytes()), rid)
}

/// The log of a register, of so many entries.
pub fn put_register(
    report: &mut Vec<u8>,
    name: &str,
    count: usize,
    entries: &[u8],
) -> Result<(), AllocError> {
    let object = name.len().saturating_add(REGISTER_BYTES);
    put_log_head(report, object, entries)?;
    report.push(REGISTER)?;
    put_text(report, name)?;
    put_entries(report, count, entries)
}

/// The log of the tables, of so many entries.
pub fn put_tables(report: &mut Vec<u8>, count: usize, entries: &[u8]) -> Result<(), AllocError> {
    put_log_head(report, 1, entries)?;
    report.push(TABLES)?;
    put_entries(report, count, entries)
}

/// The length of a log of these entries, whose object has so many bytes, and what it begins with.
fn put_log_head(report: &mut Vec<u8>, object: usize, entries: &[u8]) -> Result<(), AllocError> {
    let bytes = object.saturating_add(entries.len());
    put_length(report, bytes.saturating_add(LOG_BYTES))?;
    Ok(report.push(LOG)?)
}

fn put_entries(report: &mut Vec<u8>, count: usize, entries: &[u8]) -> Result<(), AllocError> {
    put_length(report, count)?;
    report.extend_from_slice(entries)
}

/// The entry of a read: a request's operation of this number.
pub fn put_read(entries: &mut Vec<u8>, rid: u32, number: u32) -> Result<(), AllocError> {
    begin_entry(entries, rid, number)?;
    entries.push(READ)?;
    end_entry(entries)
}

/// What stands before the act of an entry: whose operation of which number it is.
pub fn begin_entry(entries: &mut Vec<u8>, rid: u32, number: u32) -> Result<(), AllocError> {
    entries.extend_from_slice(&rid.to_be_bytes())?;
    entries.extend_from_slice(&number.to_be_bytes())
}

/// What stands behind the act of an entry: that there is no choice.
pub fn end_entry(entries: &mut Vec<u8>) -> Result<(), AllocError> {
    Ok(entries.push(0)?)
}

/// A text behind its length.
pub fn put_text(file: &mut Vec<u8>, text: &str) -> Result<(), AllocError> {
    put_length(file, text.len())?;
    file.extend_from_slice(text.as_bytes())
}

/// A length, in four bytes.
fn put_length(file: &mut Vec<u8>, length: usize) -> Result<(), AllocError> {
    let [_, _, _, _, a, b, c, d] = length.to_be_bytes();
    file.extend_from_slice(&[a, b, c, d])
}
