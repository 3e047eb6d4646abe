ghost use Rattle.std.specs.Prelude.{◌≡◌, IfOk, OnOk};
ghost use Rattle.trace_format.specs.Balance.{IsFirstFault, IsOneFault};
ghost use Rattle.trace_format.specs.Stages.{head_id, head_fits, asks_open, stage_of, IsNoted, IsFirstOpen};

use crate::trace_file::{EventHead, TraceFile};
use std::alloc::{AllocError, Global};
use std::collections::BTreeMap;

/// How an id stands whose request has come.
#[derive(Clone, Copy, PartialEq, Eq)]
pub enum Stage {
    /// It waits for its response.
    Open,
    /// Its response has come.
    Closed,
}

/// Notes how the id of an event stands after it. Tells whether the event fits what was known of
/// its id.
fn note(stages: &mut BTreeMap<u32, Stage>, head: EventHead) -> Result<bool, AllocError>
    ensures fits { IfOk result (λ b. b ≡ head_fits head (stage_of stages.old (head_id head))) }
    ensures noted { OnOk result (IsNoted head stages.old stages.new) }
{
    match head {
        EventHead::Asks(rid) => Ok(stages.insert(rid, Stage::Open)?.is_none()),
        EventHead::Answers(rid) => Ok(stages.insert(rid, Stage::Closed)? == Some(Stage::Open)),
    }
}

fn id_of(head: EventHead) -> u32
    ensures { result ≡ head_id head }
{
    match head {
        EventHead::Asks(rid) | EventHead::Answers(rid) => rid,
    }
}

/// Whether it is a request whose id is open.
fn asks_open(stages: &BTreeMap<u32, Stage>, head: EventHead) -> bool
    ensures { result ≡ asks_open (stage_of stages.now) head }
{
    match head {
        EventHead::Asks(rid) => match stages.get(&rid) {
            Some(Stage::Open) => true,
            Some(Stage::Closed) | None => false,
        },
        EventHead::Answers(_) => false,
    }
}

fn first_open(trace: &TraceFile, stages: &BTreeMap<u32, Stage>) -> Option<u32>
    ensures { IsFirstOpen (stage_of stages.now) trace.now result }
{
    for place in 0..trace.len() {
        let head = trace.head(place);
        if asks_open(stages, head) {
            return Some(id_of(head));
        }
    }
    None
}

/// `None` for a balanced trace; else the id of the event that names the fault.
pub fn first_unbalanced(alloc: Global, trace: &TraceFile) -> Result<Option<u32>, AllocError>
    ensures { IfOk result (λ r. IsFirstFault trace.now r) }
{
    let mut stages = BTreeMap::new(alloc);
    for place in 0..trace.len() {
        let head = trace.head(place);
        if !note(&mut stages, head)? {
            return Ok(Some(id_of(head)));
        }
    }
    Ok(first_open(trace, &stages))
}

/// A trace is balanced, or one id names its fault, and not another one.
pub fn fault_is_one()
    ensures { IsOneFault }
{}
