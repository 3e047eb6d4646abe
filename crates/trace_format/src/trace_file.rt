ghost use Rattle.std.specs.Prelude.{◌≡◌, ◌<◌, Some, IfOk, length};
ghost use Rattle.basis.specs.Lists.{nth};
ghost use Rattle.wire.specs.Files.{Decodes};
ghost use Rattle.trace_format.specs.TraceFiles.{Spelled, spelled_once};
ghost use Rattle.trace_format.specs.Events.{trace_format};
ghost use Rattle.trace_format.specs.Heads.{HasHead};

use crate::decoding::read_event;
use crate::format::Events;
use basis::OrMemory;
use period::trace::TraceEvent;
use std::alloc::{AllocError, Global};
use std::marker::Model;
use wire::fault::Unreadable;
use wire::field::{read_u8, read_u32};
use wire::records::Records;

/// What kind of event it is, and its id.
#[derive(Clone, Copy, PartialEq, Eq)]
pub enum EventHead {
    Asks(u32),
    Answers(u32),
}

/// A trace as its file has it: an event is made where it is wanted, so that all of them take no
/// more memory than the file. Contracts see the events.
#[derive(Drop)]
pub struct TraceFile {
    records: Records,
    ghost spelled: { Spelled records } by { spelled_once records },
}

impl Model for TraceFile {
    ghost use Rattle.std.specs.Prelude.{List};
    ghost use Rattle.std.specs.Coded.{coded_list};
    ghost use Rattle.period.specs.declared.trace.TraceEvent.{TraceEvent as AnyEvent};
    ghost use Rattle.period.specs.contracts.trace.TraceEvent as item;

    ghost Value = { List AnyEvent };

    ghost coded = { coded_list item.the_row.coded };

    ghost view = { λ a. a.spelled.0 };
}

impl TraceFile {
    /// The trace that the whole file spells.
    pub fn read(alloc: Global, bytes: Vec<u8>) -> Result<TraceFile, OrMemory<Unreadable>>
        ensures { Decodes trace_format bytes.items result }
    {
        let records = Records::read::<Events>(alloc, bytes)?;
        Ok(TraceFile { records })
    }

    /// How many events there are.
    pub fn len(&self) -> usize
        ensures { result ≡ length self.now }
    {
        self.records.len()
    }

    /// What kind of event stands at a place, and its id. It takes no memory.
    pub fn head(&self, place: usize) -> EventHead
        requires { place < length self.now }
        ensures { HasHead self.now place result }
    {
        let payload = self.records.payload(place);
        let Ok((tag, next)) = read_u8(payload, 0) else {
            unreachable!()
        };
        let Ok((rid, _)) = read_u32(payload, next) else {
            unreachable!()
        };
        if tag == 1 {
            EventHead::Asks(rid)
        } else {
            EventHead::Answers(rid)
        }
    }

    /// The event at a place.
    pub fn event(&self, alloc: Global, place: usize) -> Result<TraceEvent, AllocError>
        requires { place < length self.now }
        ensures { IfOk result (λ event. nth self.now place ≡ Some event) }
    {
        match read_event(alloc, self.records.payload(place), 0) {
            Ok((event, _)) => Ok(event),
            Err(OrMemory::Memory) => Err(AllocError),
            Err(OrMemory::Other(_)) => unreachable!(),
        }
    }
}
