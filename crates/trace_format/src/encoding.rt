ghost use Rattle.std.specs.Prelude.{◌≡◌, ◌++◌, ◌∷◌, ◌<◌, ◌^◌, length, OnOk};
ghost use Rattle.std.specs.Int.{w32, to_be_bytes};
ghost use Rattle.wire.specs.Spellings.{bytes_spelling};
ghost use Rattle.wire.specs.Files.{Encodes, LeavesRoom};
ghost use Rattle.trace_format.specs.Events.{trace_format, parameter_spelling, parameters_spelling};
ghost use Rattle.trace_format.specs.Events.{request_spelling, response_spelling, event_spelling};
ghost use Rattle.period.specs.declared.trace.TraceEvent.TheVariants.{Asked, Answered};

use crate::format::Events;
use basis::OrMemory;
use period::trace::{Trace, TraceEvent};
use script_tree::request::{Parameter, Request, Response};
use script_tree::text::Text;
use std::alloc::{AllocError, Global};
use wire::fault::PastLimit;
use wire::file::write_file_within;
use wire::limits::MOST_FILE_BYTES;
use wire::record::RecordWriter;
use wire::writing::{write_bytes, write_u8, write_u16, write_u32};

/// How many bytes an event's tag and id have.
pub(crate) const HEAD_BYTES: usize = 5;

/// What is left of so much room behind the text's spelling, or `None` where it has more bytes.
fn room_behind_text(room: usize, text: &Text) -> Option<usize>
    ensures { LeavesRoom room (bytes_spelling text.now) result }
{
    room.checked_sub(4)?.checked_sub(text.len())
}

fn room_behind_parameter(room: usize, parameter: &Parameter) -> Option<usize>
    ensures { LeavesRoom room (parameter_spelling parameter.now) result }
{
    let left = room_behind_text(room, &parameter.name)?;
    room_behind_text(left, &parameter.value)
}

fn room_behind_parameters(room: usize, parameters: &[Parameter]) -> Option<usize>
    ensures { LeavesRoom room (parameters_spelling parameters.now) result }
{
    let mut left = room;
    for parameter in parameters {
        left = room_behind_parameter(left, parameter)?;
    }
    Some(left)
}

pub(crate) fn room_behind_request(room: usize, request: &Request) -> Option<usize>
    ensures { LeavesRoom room (request_spelling request.now) result }
{
    let left = room_behind_text(room, request.method())?;
    let left = room_behind_text(left, request.path())?;
    let left = left.checked_sub(4)?;
    let left = room_behind_parameters(left, request.parameters().as_slice())?;
    room_behind_text(left, request.body())
}

pub(crate) fn room_behind_response(room: usize, response: &Response) -> Option<usize>
    ensures { LeavesRoom room (response_spelling response.now) result }
{
    let left = room.checked_sub(2)?;
    room_behind_text(left, &response.body)
}

fn room_behind_event(room: usize, event: &TraceEvent) -> Option<usize>
    ensures { LeavesRoom room (event_spelling event.now) result }
{
    let left = room.checked_sub(HEAD_BYTES)?;
    match event {
        TraceEvent::Asked(_, request) => room_behind_request(left, request),
        TraceEvent::Answered(_, response) => room_behind_response(left, response),
    }
}

fn write_parameter(out: &mut Vec<u8>, parameter: &Parameter) -> Result<(), AllocError>
    requires { length (parameter_spelling parameter.now) < 2 ^ 32 }
    ensures { OnOk result (out.new.items ≡ out.old.items ++ parameter_spelling parameter.now) }
{
    write_bytes(out, parameter.name.as_bytes())?;
    write_bytes(out, parameter.value.as_bytes())
}

fn write_parameters(out: &mut Vec<u8>, parameters: &[Parameter]) -> Result<(), AllocError>
    requires { length (parameters_spelling parameters.now) < 2 ^ 32 }
    ensures { OnOk result (out.new.items ≡ out.old.items ++ parameters_spelling parameters.now) }
{
    for parameter in parameters {
        write_parameter(out, parameter)?;
    }
    Ok(())
}

pub(crate) fn write_request(out: &mut Vec<u8>, request: &Request) -> Result<(), AllocError>
    requires { length (request_spelling request.now) < 2 ^ 32 }
    ensures { OnOk result (out.new.items ≡ out.old.items ++ request_spelling request.now) }
{
    let parameters = request.parameters().as_slice();
    write_bytes(out, request.method().as_bytes())?;
    write_bytes(out, request.path().as_bytes())?;
    write_u32(out, parameters.len() as u32)?;
    write_parameters(out, parameters)?;
    write_bytes(out, request.body().as_bytes())
}

fn write_response(out: &mut Vec<u8>, response: &Response) -> Result<(), AllocError>
    requires { length (response_spelling response.now) < 2 ^ 32 }
    ensures { OnOk result (out.new.items ≡ out.old.items ++ response_spelling response.now) }
{
    write_u16(out, response.status)?;
    write_bytes(out, response.body.as_bytes())
}

/// Writes what stands before a request in the event that it came.
pub(crate) fn write_asked_head(out: &mut Vec<u8>, rid: u32) -> Result<(), AllocError>
    ensures { OnOk result (out.new.items ≡ out.old.items ++ 1 ∷ to_be_bytes w32 rid) }
{
    write_u8(out, 1)?;
    write_u32(out, rid)
}

/// Writes the event that a request came.
fn write_asked(out: &mut Vec<u8>, rid: u32, request: &Request) -> Result<(), AllocError>
    requires { length (event_spelling (Asked rid request.now)) < 2 ^ 32 }
    ensures { OnOk result
        (out.new.items ≡ out.old.items ++ event_spelling (Asked rid request.now)) }
{
    write_asked_head(out, rid)?;
    write_request(out, request)
}

/// Writes the event that a response was sent.
pub(crate) fn write_answered(
    out: &mut Vec<u8>,
    rid: u32,
    response: &Response,
) -> Result<(), AllocError>
    requires { length (event_spelling (Answered rid response.now)) < 2 ^ 32 }
    ensures { OnOk result
        (out.new.items ≡ out.old.items ++ event_spelling (Answered rid response.now)) }
{
    write_u8(out, 2)?;
    write_u32(out, rid)?;
    write_response(out, response)
}

fn write_event(out: &mut Vec<u8>, event: &TraceEvent) -> Result<(), AllocError>
    requires { length (event_spelling event.now) < 2 ^ 32 }
    ensures { OnOk result (out.new.items ≡ out.old.items ++ event_spelling event.now) }
{
    match event {
        TraceEvent::Asked(rid, request) => write_asked(out, *rid, request),
        TraceEvent::Answered(rid, response) => write_answered(out, *rid, response),
    }
}

impl RecordWriter for Events {
    fn room_behind(room: usize, event: &TraceEvent) -> Option<usize> {
        room_behind_event(room, event)
    }

    fn write(out: &mut Vec<u8>, event: &TraceEvent) -> Result<(), AllocError> {
        write_event(out, event)
    }
}

/// The file that spells the trace, or the first record that would end past the limit of a file. A
/// trace of more requests than a file may have is spelled too, and isn't read again.
pub fn encode(alloc: Global, trace: &Trace) -> Result<Vec<u8>, OrMemory<PastLimit>>
    ensures { Encodes (λ out. out.items) trace_format MOST_FILE_BYTES trace.now result }
{
    write_file_within::<Events>(alloc, MOST_FILE_BYTES, trace)
}
