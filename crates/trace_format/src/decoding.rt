ghost use Rattle.std.specs.Prelude.{◌≡◌};
ghost use Rattle.wire.specs.Spellings.{TakesPart};
ghost use Rattle.wire.specs.Files.{Decodes, IsExact};
ghost use Rattle.trace_format.specs.Events.{trace_format, event_field, request_count};

use crate::format::Events;
use crate::request::{read_request, read_response};
use basis::OrMemory;
use period::trace::{Trace, TraceEvent};
use script_tree::limits::MOST_REQUESTS;
use std::alloc::Global;
use wire::fault::Unreadable;
use wire::field::{read_u8, read_u32};
use wire::file::read_file;
use wire::record::RecordReader;

/// The event at the start of a payload, behind so many requests, and the place behind it.
pub(crate) fn read_event(
    alloc: Global,
    payload: &[u8],
    asked: usize,
) -> Result<(TraceEvent, usize), OrMemory<Unreadable>>
    ensures { TakesPart (λ x. x) (event_field asked) payload.now 0 result }
{
    let (tag, next) = read_u8(payload, 0)?;
    let (rid, next) = read_u32(payload, next)?;
    match tag {
        1 if asked < MOST_REQUESTS => {
            let (request, next) = read_request(alloc, payload, next)?;
            Ok((TraceEvent::Asked(rid, request), next))
        }
        2 => {
            let (response, next) = read_response(alloc, payload, next)?;
            Ok((TraceEvent::Answered(rid, response), next))
        }
        _ => Err(OrMemory::Other(Unreadable { at: 0 })),
    }
}

impl RecordReader for Events {
    ghost HasRead = { λ reader before. reader.asked ≡ request_count before };

    fn new() -> Events {
        Events { asked: 0 }
    }

    fn read(&mut self, alloc: Global, payload: &[u8]) -> Result<TraceEvent, OrMemory<Unreadable>> {
        let (event, next) = read_event(alloc, payload, self.asked)?;
        if next != payload.len() {
            drop(event);
            return Err(OrMemory::Other(Unreadable { at: next }));
        }
        if let TraceEvent::Asked(..) = event {
            self.asked += 1;
        }
        Ok(event)
    }
}

/// The trace that the whole file spells.
pub fn decode(alloc: Global, bytes: &[u8]) -> Result<Trace, OrMemory<Unreadable>>
    ensures { Decodes trace_format bytes.now result }
{
    read_file::<Events>(alloc, bytes)
}

/// A file is read in one way: as one trace at most, or as unreadable at one place; and what is
/// encoded is decoded again.
pub fn reading_is_exact()
    ensures { IsExact trace_format }
{}
