//! `report_format`: the examples of docs/formats.md.

use period::report::{Log, LogEntry, Report};
use report_format::appending::{SpelledEntries, add_count, add_group, add_log, begin};
use report_format::decoding::decode;
use report_format::encoding::encode;
use script_tree::operation::{Act, Choice, Object};
use script_tree::text::Text;
use script_tree::value::{Node, Value};
use std::alloc::{AllocError, Global};

/// One request without operations, alone in its group.
const FILE: &[u8; 34] = b"SSCORPT1\x00\x00\x00\x09\x01\x00\x00\x00\x00\x00\x00\x00\x00\
    \x00\x00\x00\x09\x03\x00\x00\x00\x01\x00\x00\x00\x00";

/// The log of the register `hits` after the first request for the page /hit.
const LOG: &[u8; 55] = b"SSCORPT1\x00\x00\x00\x2b\x02\x01\x00\x00\x00\x04hits\x00\x00\x00\x02\
    \x00\x00\x00\x00\x00\x00\x00\x01\x01\x00\
    \x00\x00\x00\x00\x00\x00\x00\x02\x02\x03\x00\x00\x00\x00\x00\x00\x00\x01\x00";

/// Whether what the file spells is encoded as the file.
fn is_encoded_again(alloc: Global, file: &[u8]) -> bool {
    match decode(alloc, file) {
        Ok(report) => match encode(alloc, &report) {
            Ok(bytes) => bytes.as_slice() == file,
            Err(_) => false,
        },
        Err(_) => false,
    }
}

fn is_read_entry(entry: &LogEntry) -> bool {
    (entry.rid, entry.number) == (0, 1)
        && matches!(&entry.act, Act::Read)
        && entry.choice == Choice::Nothing
}

fn is_write_entry(entry: &LogEntry) -> bool {
    match &entry.act {
        Act::Write(value) => {
            (entry.rid, entry.number) == (0, 2) && matches!(&value.node, Node::Number(1))
        }
        _ => false,
    }
}

fn is_the_log(log: &Log) -> bool {
    match (&log.object, log.entries.as_slice()) {
        (Object::Register(name), [read, write]) => {
            name.as_bytes() == b"hits".as_slice() && is_read_entry(read) && is_write_entry(write)
        }
        _ => false,
    }
}

fn is_the_example(report: &Report) -> bool {
    match (
        report.counts.len(),
        report.logs.as_slice(),
        report.groups.as_slice(),
    ) {
        (1, [], [group]) => group.rids() == [0].as_slice(),
        (0, [log], []) => is_the_log(log),
        _ => false,
    }
}

fn has_the_example(alloc: Global, file: &[u8]) -> bool {
    match decode(alloc, file) {
        Ok(report) => is_the_example(&report),
        Err(_) => false,
    }
}

#[test]
fn files_of_the_examples(rt: HostRuntime) {
    assert!(rt; has_the_example(rt.alloc(), FILE) && is_encoded_again(rt.alloc(), FILE));
    assert!(rt; has_the_example(rt.alloc(), LOG) && is_encoded_again(rt.alloc(), LOG));
}

/// The entries of the log, spelled.
fn hits(alloc: Global) -> Result<SpelledEntries, AllocError> {
    let mut entries = SpelledEntries::new(alloc);
    entries.push(&LogEntry {
        rid: 0,
        number: 1,
        act: Act::Read,
        choice: Choice::Nothing,
    })?;
    entries.push(&LogEntry {
        rid: 0,
        number: 2,
        act: Act::Write(Value::number(1)),
        choice: Choice::Nothing,
    })?;
    Ok(entries)
}

/// The file of that log.
fn log_file(alloc: Global) -> Result<Vec<u8>, AllocError> {
    let entries = hits(alloc)?;
    let name = Text::from_vec(Vec::from_slice(alloc, b"hits")?);
    let mut file = begin(alloc)?;
    add_log(&mut file, &Object::Register(name), &entries)?;
    Ok(file)
}

/// A file of the counts and the groups of a report, added one after another.
fn grown(alloc: Global, report: &Report) -> Result<Vec<u8>, AllocError> {
    let mut file = begin(alloc)?;
    for count in report.counts.as_slice() {
        add_count(&mut file, *count)?;
    }
    for group in report.groups.as_slice() {
        add_group(&mut file, group)?;
    }
    Ok(file)
}

fn grows_again(alloc: Global, file: &[u8]) -> bool {
    match decode(alloc, file) {
        Ok(report) => is_file(grown(alloc, &report), file),
        Err(_) => false,
    }
}

fn is_file(found: Result<Vec<u8>, AllocError>, file: &[u8]) -> bool {
    match found {
        Ok(bytes) => bytes.as_slice() == file,
        Err(_) => false,
    }
}

#[test]
fn files_that_grow(rt: HostRuntime) {
    assert!(rt; grows_again(rt.alloc(), FILE) && is_file(log_file(rt.alloc()), LOG));
}
