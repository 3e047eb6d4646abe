ghost use Rattle.std.specs.Prelude.{◌≡◌, IfOk};
ghost use Rattle.script_tree.specs.Requests.{IsRequestWithinLimits};
ghost use Rattle.trace_format.specs.Events.{request_spelling};
ghost use Rattle.trace_format.specs.Packed.{Packed, packed_once};

use crate::encoding::{room_behind_request, write_request};
use crate::request::read_request;
use basis::OrMemory;
use script_tree::request::Request;
use std::alloc::{AllocError, Global};
use std::marker::Model;

/// How many bytes a packed request may have.
const MOST_BYTES: usize = u32::MAX as usize;

/// A request as a trace spells it, which takes much less memory. Contracts see the request.
#[derive(Drop)]
pub struct PackedRequest {
    bytes: Vec<u8>,
    ghost packed: { Packed bytes.items } by { packed_once bytes.items },
}

impl Model for PackedRequest {
    ghost use Rattle.script_tree.specs.Requests.{Request as Asked};
    ghost use Rattle.script_tree.specs.contracts.request.Request as item;

    ghost Value = { Asked };

    ghost coded = { item.the_row.coded };

    ghost view = { λ a. a.packed.0 };
}

impl PackedRequest {
    /// Packs a request. One of more bytes than 32 bits count is answered as want of memory.
    pub fn pack(alloc: Global, request: &Request) -> Result<PackedRequest, AllocError>
        ensures { IfOk result (λ packed. packed ≡ request.now) }
    {
        request.keeps_limits();
        let Some(left) = room_behind_request(MOST_BYTES, request) else {
            return Err(AllocError);
        };
        let mut bytes = Vec::with_capacity(alloc, MOST_BYTES - left)?;
        write_request(&mut bytes, request)?;
        Ok(PackedRequest { bytes })
    }

    /// Its texts and its parameters are within the limits of a request.
    pub fn keeps_limits(&self)
        ensures { IsRequestWithinLimits self.now }
    {
        let _ = &self.bytes;
    }

    /// How a trace spells it.
    pub(crate) fn as_bytes(&self) -> &[u8]
        ensures { result.now ≡ request_spelling self.now }
    {
        &self.bytes
    }

    /// The request.
    pub fn unpack(&self, alloc: Global) -> Result<Request, AllocError>
        ensures { IfOk result (λ request. request ≡ self.now) }
    {
        match read_request(alloc, &self.bytes, 0) {
            Ok((request, _)) => Ok(request),
            Err(OrMemory::Memory) => Err(AllocError),
            Err(OrMemory::Other(_)) => unreachable!(),
        }
    }
}
