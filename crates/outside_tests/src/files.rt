//! The real files, streams and clock, each call through its trait's bound.

use command_inputs::Role;
use command_inputs::file::read_whole;
use outside::{Clock, Fault, Shelf, ShelfFault, Sink};
use outside_os::{FileShelf, StdSink, StreamSink, SystemClock};
use std::alloc::Global;
use std::io::{Read, Write};
use std::os::fd::AsRawFd;
use std::test::Fail;
use std::{fs, io, process};

/// Whether the file has these bytes. It is read in pieces, up to its end.
fn reads<S: Shelf>(alloc: Global, shelf: &mut S, name: &str, bytes: &[u8]) -> bool {
    match read_whole(alloc, shelf, Role::Program, name, 1_000_000) {
        Ok(read) => read.as_slice() == bytes,
        Err(_) => false,
    }
}

/// Whether these bytes are written, and read again.
fn keeps<S: Shelf>(alloc: Global, shelf: &mut S, name: &str, bytes: &[u8]) -> bool {
    shelf.write(name, bytes) == Ok(()) && reads(alloc, shelf, name, bytes)
}

fn refuses<S: Shelf>(shelf: &mut S, name: &str, fault: ShelfFault) -> bool {
    shelf.read_at(name, 0, &mut [0]) == Err(fault)
        && shelf.write(name, b"lost") == Err(Fault::Failed)
}

/// Bytes that fill a pipe, and three more.
fn bytes(alloc: Global) -> Result<Vec<u8>, Fail> {
    let mut bytes = Vec::new(alloc);
    for at in 0u32..65_539 {
        bytes.push((at % 251) as u8)?;
    }
    Ok(bytes)
}

/// Whether a file has what is put there last, be it more or less than before.
fn keeps_the_last<S: Shelf>(alloc: Global, shelf: &mut S, name: &str) -> Result<bool, Fail> {
    let bytes = bytes(alloc)?;
    Ok(
        [6, 65_539, 4_096, 0, 7].iter().all(|len| keeps(
            alloc,
            shelf,
            name,
            bytes.get(..*len).unwrap_or(&[]),
        )),
    )
}

#[test]
fn a_file(rt: HostRuntime) -> Result<(), Fail> {
    let id = process::id(rt.process());
    let name = format!(in rt.alloc(); "/tmp/outside_tests_{id}")?;
    let is_kept = keeps_the_last(rt.alloc(), &mut FileShelf::new(rt.clone()?), name.as_str())?;
    fs::remove_file(&rt, name.as_str())?;
    assert!(rt; is_kept);
    Ok(())
}

/// Whether names that no file can have are refused.
fn refuses_odd_names<S: Shelf>(alloc: Global, shelf: &mut S) -> Result<bool, Fail> {
    let mut long_name = String::from_str(alloc, "/tmp/")?;
    for _ in 0..300 {
        long_name.push('x')?;
    }
    Ok(
        refuses(shelf, "/tmp/missing/notes", ShelfFault::Absent)
            && refuses(shelf, "/tmp", ShelfFault::Failed)
            && refuses(shelf, long_name.as_str(), ShelfFault::Failed),
    )
}

#[test]
fn names_of_no_file(rt: HostRuntime) -> Result<(), Fail> {
    let mut shelf = FileShelf::new(rt.clone()?);
    assert!(rt; refuses_odd_names(rt.alloc(), &mut shelf)?);
    Ok(())
}

#[test]
fn a_pipe_as_a_file(rt: HostRuntime) -> Result<(), Fail> {
    let (reader, mut writer) = io::pipe(&rt)?;
    let name = format!(in rt.alloc(); "/dev/fd/{}", reader.as_raw_fd())?;
    writer.write_all(&[b'a'; 5_000])?;
    drop(writer);
    let mut shelf = FileShelf::new(rt.clone()?);
    assert!(rt; reads(rt.alloc(), &mut shelf, name.as_str(), &[b'a'; 5_000]));
    Ok(())
}

fn writes<O: Sink>(out: &mut O, bytes: &[u8]) -> bool {
    out.write(bytes) == Ok(bytes.len())
}

#[test]
fn sinks(rt: HostRuntime) -> Result<(), Fail> {
    let (mut reader, writer) = io::pipe(&rt)?;
    let mut out = StreamSink::new(writer);
    let mut piece = [0; 4];
    let is_written = writes(&mut out, b"line");
    reader.read_exact(&mut piece)?;
    drop(reader);
    let is_refused = out.write(b"lost") == Err(Fault::Failed);
    assert!(rt; is_written && piece == *b"line" && is_refused);
    Ok(())
}

#[test]
fn standard_output(rt: HostRuntime) {
    assert!(rt; writes(&mut StdSink::new(rt.stdout()), b"written\n"));
}

/// The reading is past the year 2023.
#[test]
fn clock(rt: HostRuntime) -> Result<(), Fail> {
    let clock = SystemClock::new(rt.clone()?);
    assert!(rt; clock.now() > 1_700_000_000_000);
    Ok(())
}
