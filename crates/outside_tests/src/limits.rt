//! Inputs at their limit, and one byte past it. Of the others the contracts say the same.

use command_inputs::{
    InputError, InputFault, Role, read_report, read_schedule, read_trace, read_turns,
};
use outside::{MemShelf, Shelf};
use std::alloc::{AllocError, Global};

/// Why the input isn't read with this limit, if so.
fn refusal<F: Shelf>(alloc: Global, shelf: &mut F, role: Role, most: u32) -> Option<InputError> {
    let name = role.name();
    match role {
        Role::Turns => read_turns(alloc, shelf, name, most as usize).err(),
        Role::Trace => read_trace(alloc, shelf, name, most as usize).err(),
        Role::Report => read_report(alloc, shelf, name, most as usize).err(),
        Role::Schedule => read_schedule(alloc, shelf, name, most as usize).err(),
        Role::Program | Role::State | Role::Requests => Some(AllocError.into()),
    }
}

/// Whether the input has so many bytes, which are read with that limit and not with one less.
fn has(alloc: Global, shelf: &mut MemShelf, role: Role, len: u32) -> bool {
    let too_long = InputError::Fault(InputFault::TooLong(role));
    refusal(alloc, shelf, role, len).is_none()
        && refusal(alloc, shelf, role, len.saturating_sub(1)) == Some(too_long)
}

fn all_have(alloc: Global) -> Result<bool, AllocError> {
    let files: [(&str, &[u8]); 4] = [
        ("turns", b"[ ]"),
        ("trace", b"SSCOTRC1"),
        ("report", b"SSCORPT1"),
        ("schedule", b"SSCOSCH1"),
    ];
    let mut shelf = MemShelf::new(alloc, Vec::new(alloc));
    for (name, bytes) in files {
        shelf.put(name, bytes)?;
    }
    Ok(
        [
            (Role::Turns, 3),
            (Role::Trace, 8),
            (Role::Report, 8),
            (Role::Schedule, 8),
        ]
        .iter()
        .all(|(role, len)| has(alloc, &mut shelf, *role, *len)),
    )
}

#[test]
fn limits(rt: HostRuntime) {
    assert!(rt; all_have(rt.alloc()).unwrap_or(false));
}
