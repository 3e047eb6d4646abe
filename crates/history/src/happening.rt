ghost use Rattle.std.specs.Prelude.{◌≡◌};
ghost use Rattle.history.specs.Histories.{happening_by, choice_in, number_in, rid_in};

use crate::event::{Event, Reply};
use basis::Items;
use script_tree::operation::{Choice, Op};
use script_tree::path::Path;
use script_tree::request::Response;
use std::sync::Arc;
use trace_format::packed::PackedRequest;

/// What happened at a seat, to the request of an id; an operation has a number among those of its
/// request, from 1.
#[derive(Drop)]
pub enum Happening {
    Arrive {
        seat: u32,
        rid: u32,
        request: Arc<PackedRequest>,
    },
    Act {
        seat: u32,
        rid: u32,
        number: u32,
        op: Op,
        choice: Choice,
    },
    Depart {
        seat: u32,
        rid: u32,
        response: Response,
        path: Path,
    },
}

/// What happened, in its order.
pub type History = Items<Happening>;

/// What an event was that had this reply.
pub fn happening_by(seat: u32, event: Event, reply: &Reply) -> Happening
    ensures { result ≡ happening_by seat event reply.now }
{
    let rid = rid_in(reply);
    match event {
        Event::Arrive(request) => Happening::Arrive { seat, rid, request },
        Event::Act(op, _offer) => Happening::Act {
            seat,
            rid,
            number: number_in(reply),
            op,
            choice: choice_in(reply),
        },
        Event::Depart(response, path) => Happening::Depart {
            seat,
            rid,
            response,
            path,
        },
    }
}

/// The id that a reply tells.
fn rid_in(reply: &Reply) -> u32
    ensures { result ≡ rid_in reply.now }
{
    match reply {
        Reply::Arrived { rid } | Reply::Acted { rid, .. } | Reply::Departed { rid } => *rid,
    }
}

/// The number that a reply tells.
fn number_in(reply: &Reply) -> u32
    ensures { result ≡ number_in reply.now }
{
    match reply {
        Reply::Acted { number, .. } => *number,
        Reply::Arrived { .. } | Reply::Departed { .. } => 0,
    }
}

/// The choice that a reply tells.
fn choice_in(reply: &Reply) -> Choice
    ensures { result ≡ choice_in reply.now }
{
    match reply {
        Reply::Acted { choice, .. } => *choice,
        Reply::Arrived { .. } | Reply::Departed { .. } => Choice::Nothing,
    }
}
