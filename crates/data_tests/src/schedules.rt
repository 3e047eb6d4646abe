//! `schedule_format`: the examples of docs/formats.md.

use basis::OrMemory;
use period::schedule::Moment;
use schedule_format::decoding::decode;
use schedule_format::encoding::encode;
use script_tree::operation::Choice;
use std::alloc::Global;
use wire::fault::Unreadable;

/// Request 0 arrives and departs.
const FILE: &[u8; 26] =
    b"SSCOSCH1\x00\x00\x00\x05\x01\x00\x00\x00\x00\x00\x00\x00\x05\x03\x00\x00\x00\x00";

/// Request 7 draws 258 and, in its next operation, chooses nothing.
const CHOICES: &[u8; 36] = b"SSCOSCH1\x00\x00\x00\x0e\x02\x00\x00\x00\x07\x01\
    \x00\x00\x00\x00\x00\x00\x01\x02\x00\x00\x00\x06\x02\x00\x00\x00\x07\x00";

/// Whether the file has these moments, which are spelled as it is.
fn has(alloc: Global, file: &[u8], moments: &[Moment]) -> Result<bool, OrMemory<Unreadable>> {
    let schedule = decode(alloc, file)?;
    let bytes = encode(alloc, &schedule)?;
    Ok(schedule.as_slice() == moments && bytes.as_slice() == file)
}

#[test]
fn files_of_the_examples(rt: HostRuntime) {
    let moments = [Moment::Arrive(0), Moment::Depart(0)];
    assert!(rt; has(rt.alloc(), FILE, &moments) == Ok(true));
    let moments = [
        Moment::Act(7, Choice::Number(258)),
        Moment::Act(7, Choice::Nothing),
    ];
    assert!(rt; has(rt.alloc(), CHOICES, &moments) == Ok(true));
}
