use script_tree::operation::{Choice, Op};
use script_tree::path::Path;
use script_tree::request::Response;
use script_tree::value::Value;
use std::sync::Arc;
use trace_format::packed::PackedRequest;

/// What a recorder is asked to take down.
#[derive(Drop)]
pub enum Event {
    /// A request arrives.
    Arrive(Arc<PackedRequest>),
    /// The open request does its next operation. For a reading of the clock and for a roll a number
    /// is offered.
    Act(Op, Option<i64>),
    /// The open request ends, with its response and its path.
    Depart(Response, Path),
}

/// What is told of an event.
#[derive(Drop)]
pub enum Reply {
    /// The request has this id: so many had arrived before it.
    Arrived {
        rid: u32,
    },
    /// The operation of a request, of this number among those of the request, from 1, with the choice
    /// that was made, and its answer.
    Acted {
        rid: u32,
        number: u32,
        choice: Choice,
        answer: Value,
    },
    Departed {
        rid: u32,
    },
}
