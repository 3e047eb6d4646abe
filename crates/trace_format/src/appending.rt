//! The file of a trace that is made a record at a time.
ghost use Rattle.std.specs.Prelude.{[], ◌≡◌, ◌+◌, ◌++◌, length, IfOk, OnOk};
ghost use Rattle.wire.specs.Files.{file_spelling, record_spelling};
ghost use Rattle.trace_format.specs.Events.{trace_format, response_spelling};
ghost use Rattle.period.specs.declared.trace.TraceEvent.TheVariants as it;

use crate::encoding::{HEAD_BYTES, room_behind_response, write_answered, write_asked_head};
use crate::format::Events;
use crate::packed::PackedRequest;
use script_tree::request::Response;
use std::alloc::{AllocError, Global};
use wire::record::RecordFormat;
use wire::writing::write_u32;

/// How many bytes of a payload may stand behind an event's tag and id.
const MOST_BYTES: usize = u32::MAX as usize - HEAD_BYTES;

/// The file of a trace without events.
pub fn begin(alloc: Global) -> Result<Vec<u8>, AllocError>
    ensures { IfOk result (λ out. out.items ≡ file_spelling trace_format []) }
{
    Vec::from_slice(alloc, Events::magic())
}

/// How many bytes the payload of a response's record has.
fn answered_len(response: &Response) -> Result<u32, AllocError>
    ensures { IfOk result (λ len. len ≡ 5 + length (response_spelling response.now)) }
{
    match room_behind_response(MOST_BYTES, response) {
        Some(left) => Ok((HEAD_BYTES + MOST_BYTES - left) as u32),
        None => Err(AllocError),
    }
}

/// Puts the record of a request behind the bytes. One that 32 bits don't count is answered as want
/// of memory.
pub fn add_request(out: &mut Vec<u8>, rid: u32, request: &PackedRequest) -> Result<(), AllocError>
    ensures { OnOk result
        (out.new.items
        ≡ out.old.items ++ record_spelling trace_format (it.Asked rid request.now)) }
{
    let spelled = request.as_bytes();
    if spelled.len() > MOST_BYTES {
        return Err(AllocError);
    }
    write_u32(out, (HEAD_BYTES + spelled.len()) as u32)?;
    write_asked_head(out, rid)?;
    out.extend_from_slice(spelled)
}

/// Puts the record of a response behind the bytes, in the same way.
pub fn add_response(out: &mut Vec<u8>, rid: u32, response: &Response) -> Result<(), AllocError>
    ensures { OnOk result
        (out.new.items
        ≡ out.old.items ++ record_spelling trace_format (it.Answered rid response.now)) }
{
    let len = answered_len(response)?;
    write_u32(out, len)?;
    write_answered(out, rid, response)
}
