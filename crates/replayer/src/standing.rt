ghost use Rattle.std.specs.Prelude.{◌≡◌, ◌<◌, ℕ, length, vec_len, slice_index_or, IfOk, OnOk, OnErr};
ghost use Rattle.replayer.specs.Differences.{first_not_departed};
ghost use Rattle.replayer.specs.Standings.{standing_at, departed_in, is_departed, waiting_from};
ghost use Rattle.replayer.specs.Standings.{PutsAnswer, IsWaiting, IsLeftOpen};
ghost use Rattle.replayer.specs.declared.standing.Standing.TheVariants.{Away};

use crate::open_request::OpenRequest;
use crate::reason::ReplayReason;
use script_tree::value::Value;
use std::alloc::{AllocError, Global};
use trace_format::trace_file::EventHead;
use trace_index::IndexedTrace;

/// How a request stands.
#[derive(Drop)]
pub enum Standing {
    /// It has not arrived.
    Away,
    /// It has arrived and not departed.
    Open(OpenRequest),
    /// It has departed.
    Departed,
}

/// So many requests, all of them away.
pub fn all_away(alloc: Global, count: usize) -> Result<Vec<Standing>, AllocError>
    ensures len { IfOk result (λ v. vec_len v ≡ count) }
    ensures away { IfOk result (λ v. (k : ℕ) → slice_index_or v.items k Away ≡ Away) }
{
    let mut standings = Vec::with_capacity(alloc, count)?;
    for _ in 0..count {
        standings.push(Standing::Away)?;
    }
    Ok(standings)
}

/// Gives an open request the answer to its operation.
pub fn put_answer(
    standings: &mut Vec<Standing>,
    place: usize,
    answer: Value,
) -> Result<(), AllocError>
    ensures put { OnOk result (PutsAnswer standings.old.items place answer standings.new.items) }
    ensures refused { OnErr result (standings.new.items ≡ standings.old.items) }
    ensures len { vec_len standings.new ≡ vec_len standings.old }
{
    if place < standings.len()
        && let Standing::Open(open) = &mut standings[place]
    {
        open.push(answer)?;
    }
    Ok(())
}

/// Whether the request that stands at a place of the trace has departed.
fn is_departed(standings: &[Standing], place: Option<usize>) -> bool
    ensures { result ≡ is_departed (standing_at standings.now place) }
{
    match place {
        Some(place) => matches!(standings.get(place), Some(Standing::Departed)),
        None => false,
    }
}

/// Whether a response stands here whose request has not departed.
fn waits(trace: &IndexedTrace, standings: &[Standing], place: usize) -> bool
    requires { place < length trace.now }
    ensures { IsWaiting trace.now standings.now place result }
{
    match trace.head(place) {
        EventHead::Answers(_) => !is_departed(standings, trace.partner(place)),
        EventHead::Asks(_) => false,
    }
}

/// The place of the first response from here on whose request has not departed.
pub fn first_waiting(trace: &IndexedTrace, standings: &[Standing], from: usize) -> usize
    ensures { result ≡ waiting_from trace.now standings.now from }
{
    let mut place = from;
    while place < trace.len() && !waits(trace, standings, place) {
        place += 1;
    }
    place
}

/// The event, where it is a request that has not departed.
fn left_open(trace: &IndexedTrace, standings: &[Standing], head: EventHead) -> Option<ReplayReason>
    ensures { IsLeftOpen trace.now standings.now head result }
{
    match head {
        EventHead::Asks(rid) => {
            if is_departed(standings, trace.place(rid)) {
                None
            } else {
                Some(ReplayReason::Open(rid))
            }
        }
        EventHead::Answers(_) => None,
    }
}

/// The first request of the trace that has not departed.
pub fn first_not_departed(trace: &IndexedTrace, standings: &[Standing]) -> Option<ReplayReason>
    ensures { result ≡ first_not_departed (departed_in trace.now standings.now) trace.now }
{
    for place in 0..trace.len() {
        if let Some(reason) = left_open(trace, standings, trace.head(place)) {
            return Some(reason);
        }
    }
    None
}
