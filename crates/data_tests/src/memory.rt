//! `outside`: each object in memory through its trait's bound, with memory and without a fault.

use outside::{
    Clock, Door, DoorPlan, Fault, FixedClock, Gate, House, Link, LinkPlan, MemDoor, MemHouse,
    MemLink, MemShelf, MemSink, OpenGate, Shelf, ShelfFault, Sink,
};
use std::alloc::{AllocError, Global};
use std::num::NonZeroUsize;

/// Writes six bytes under a name, and reads from the fifth on.
fn last_bytes<S: Shelf>(shelf: &mut S, piece: &mut [u8]) -> Result<usize, ShelfFault> {
    match shelf.write("notes", b"abcdef") {
        Ok(()) => shelf.read_at("notes", 4, piece),
        Err(_) => Err(ShelfFault::Failed),
    }
}

#[test]
fn shelf(rt: HostRuntime) {
    let mut piece = [b'.'; 4];
    let mut shelf = MemShelf::new(rt.alloc(), Vec::new(rt.alloc()));
    let kept = shelf.put("kept", b"0123");
    let count = last_bytes(&mut shelf, &mut piece);
    assert!(rt; kept == Ok(()) && count == Ok(2) && piece == *b"ef..");
}

fn write_greeting<S: Sink>(sink: &mut S) -> Result<usize, Fault> {
    sink.write(b"hello, world")
}

#[test]
fn sink(rt: HostRuntime) {
    let mut sink = MemSink::new(rt.alloc(), Vec::new(rt.alloc()), NonZeroUsize::new(5));
    let count = write_greeting(&mut sink);
    assert!(rt; count == Ok(5) && sink.written() == b"hello".as_slice());
}

/// Writes a reply, and gives the first byte.
fn first_byte<L: Link>(link: &mut L) -> Result<u8, Fault> {
    let mut piece = [b'.'];
    link.write(b"reply")?;
    link.read(&mut piece)?;
    Ok(piece[0])
}

/// The first byte of a door's first link.
fn first_at<D: Door>(door: &mut D) -> Result<u8, Fault> {
    let mut link = door.accept()?;
    first_byte(&mut link)
}

/// The first byte at a house's first door.
fn first_in<H: House>(house: &mut H) -> Result<u8, Fault> {
    house.open("here")?;
    let mut door = house.door()?;
    let found = first_at(&mut door);
    house.done(door);
    found
}

/// One link of these bytes.
fn link_plans(alloc: Global, bytes: &[u8]) -> Result<Vec<LinkPlan>, AllocError> {
    let mut links = Vec::new(alloc);
    links.push(LinkPlan {
        bytes: Vec::from_slice(alloc, bytes)?,
        failing: Vec::new(alloc),
        at_most: None,
    })?;
    Ok(links)
}

/// A house of one door, which has one link of these bytes.
fn house_of(alloc: Global, bytes: &[u8]) -> Result<MemHouse, AllocError> {
    let mut doors = Vec::new(alloc);
    doors.push(DoorPlan {
        links: link_plans(alloc, bytes)?,
        failing: Vec::new(alloc),
    })?;
    Ok(MemHouse::new(alloc, doors, Vec::new(alloc)))
}

fn first_in_memory(alloc: Global) -> Result<u8, Fault> {
    let mut house = house_of(alloc, b"de")?;
    first_in(&mut house)
}

#[test]
fn house(rt: HostRuntime) {
    assert!(rt; first_in_memory(rt.alloc()) == Ok(b'd'));
}

fn pass_gate<C: Clock, G: Gate>(clock: &C, gate: &G) -> u64 {
    gate.pass(7, 0);
    clock.now()
}

#[test]
fn clock_and_gate(rt: HostRuntime) {
    assert!(rt; pass_gate(&FixedClock(12345), &OpenGate) == 12345);
}
