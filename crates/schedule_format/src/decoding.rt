ghost use Rattle.wire.specs.Files.{Decodes, IsExact};
ghost use Rattle.schedule_format.specs.Moments.{schedule_format, ReadsMoment};

use crate::format::Moments;
use basis::OrMemory;
use period::schedule::{Moment, Schedule};
use std::alloc::Global;
use wire::fault::Unreadable;
use wire::field::{read_choice, read_u8, read_u32};
use wire::file::read_file;
use wire::record::RecordReader;

/// The moment at the start of a payload, and the place behind it. It doesn't matter which place a
/// fault names.
pub(crate) fn read_moment(payload: &[u8]) -> Result<(Moment, usize), Unreadable>
    ensures { ReadsMoment payload.now result }
{
    let (tag, next) = read_u8(payload, 0)?;
    let (rid, next) = read_u32(payload, next)?;
    match tag {
        1 => Ok((Moment::Arrive(rid), next)),
        2 => {
            let (choice, next) = read_choice(payload, next)?;
            Ok((Moment::Act(rid, choice), next))
        }
        3 => Ok((Moment::Depart(rid), next)),
        _ => Err(Unreadable { at: 0 }),
    }
}

impl RecordReader for Moments {
    ghost HasRead = { λ _ _. Unit {0} };

    fn new() -> Moments {
        Moments
    }

    fn read(&mut self, _alloc: Global, payload: &[u8]) -> Result<Moment, OrMemory<Unreadable>> {
        let (moment, next) = read_moment(payload)?;
        if next != payload.len() {
            return Err(OrMemory::Other(Unreadable { at: next }));
        }
        Ok(moment)
    }
}

/// The schedule that the whole file spells.
pub fn decode(alloc: Global, bytes: &[u8]) -> Result<Schedule, OrMemory<Unreadable>>
    ensures { Decodes schedule_format bytes.now result }
{
    read_file::<Moments>(alloc, bytes)
}

/// A file is read in one way: as one schedule at most, or as unreadable at one place; and what is
/// encoded is decoded again.
pub fn reading_is_exact()
    ensures { IsExact schedule_format }
{}
