ghost use Rattle.std.specs.Prelude.{◌≡◌, ◌+◌, true, Some, Ok, IfOk, OnOk, OnErr};
ghost use Rattle.script_tree.specs.Objects.{reading};
ghost use Rattle.object_set.specs.Applied.{FitsSet, Does, takes};
ghost use Rattle.object_set.specs.ObjectSets.{IsSetOf, objects_of};
ghost use Rattle.script_check.specs.Validity.{IsValid};
ghost use Rattle.history.specs.Recordings.{IsTaken, MayCome, room_of, choice_of};
ghost use Rattle.history.specs.Rooms.{empty_room};
ghost use Rattle.history.specs.Seats.{at_seat};
ghost use Rattle.history.specs.Visits.{rid_at};
ghost use Rattle.history.specs.declared.event.Event.TheVariants as asks;

use crate::event::{Event, Reply};
use crate::seats::{clear_at, put_at};
use crate::visit::Visit;
use basis::OrMemory;
use object_set::{ObjectSet, Refused};
use script_check::program::Program;
use script_tree::operation::{Act, Choice, Op};
use script_tree::path::Path;
use script_tree::request::Response;
use script_tree::value::Value;
use std::alloc::{AllocError, Global};
use std::marker::Model;
use std::snapshot::Snapshot;
use std::sync::Arc;
use trace_format::packed::PackedRequest;

/// What a recorder keeps between events: the objects, and of each seat the request that is open
/// there. Its program, which says what events may come, is seen by contracts alone. Ids of requests
/// and numbers of operations have 32 bits: an event that would need more is answered as want of
/// memory.
#[derive(Drop)]
pub struct Recording {
    alloc: Global,
    program: Snapshot<Program>,
    objects: ObjectSet,
    arrived: u32,
    visits: Vec<Option<Visit>>,
}

impl Model for Recording {
    ghost use Rattle.history.specs.Recordings.{Recorded, coded_recorded};

    ghost Value = { Recorded };

    ghost coded = { coded_recorded };

    ghost use Rattle.history.specs.RecordingView.{recorded_in, IsOfProgram};

    ghost view = { recorded_in };

    ghost invariant = { IsOfProgram };
}

impl Recording {
    /// No request has arrived.
    pub fn new(alloc: Global, program: &Program, objects: ObjectSet) -> Recording
        requires { IsSetOf program.now objects }
        ensures valid { IsValid program.now }
        ensures program { result.program ≡ program.now }
        ensures objects { result.objects ≡ objects }
        ensures room { room_of result ≡ empty_room (objects_of objects) }
    {
        // It tells that the program is valid.
        program.declarations();
        Recording {
            alloc,
            program: Snapshot::of(program),
            objects,
            arrived: 0,
            visits: Vec::new(alloc),
        }
    }

    /// Takes an event, and gives the reply twice.
    pub(crate) fn take(&mut self, seat: u32, event: &Event) -> Result<(Reply, Reply), AllocError>
        requires { MayCome self.old seat event.now }
        ensures { IsTaken seat event.now self.old self.new result }
    {
        match event {
            Event::Arrive(request) => self.arrive(seat, request),
            Event::Act(op, offer) => self.act(seat, op, *offer),
            Event::Depart(response, path) => Ok(self.depart(seat, response, path)),
        }
    }

    /// A request arrives at a seat.
    fn arrive(
        &mut self,
        seat: u32,
        request: &Arc<PackedRequest>,
    ) -> Result<(Reply, Reply), AllocError>
        requires { MayCome self.old seat (asks.Arrive request.now) }
        ensures { IsTaken seat (asks.Arrive request.now) self.old self.new result }
    {
        request.keeps_limits();
        let rid = self.arrived;
        let arrived = one_more(rid)?;
        let visit = Visit::new(self.alloc, rid, request.clone()?);
        put_at(&mut self.visits, seat, visit)?;
        self.arrived = arrived;
        Ok((Reply::Arrived { rid }, Reply::Arrived { rid }))
    }

    /// The request at a seat does an operation.
    fn act(&mut self, seat: u32, op: &Op, offer: Option<i64>) -> Result<(Reply, Reply), AllocError>
        requires { MayCome self.old seat (asks.Act op.now offer) }
        ensures { IsTaken seat (asks.Act op.now offer) self.old self.new result }
    {
        let choice = choice_of(&op.act, offer, &self.objects);
        let place = seat as usize;
        if place < self.visits.len()
            && let Some(visit) = &mut self.visits[place]
        {
            let rid = visit.rid;
            let number = one_more(visit.operations)?;
            visit.answers.reserve(1)?;
            let (answer, kept, told) = thrice(&mut self.objects, op, choice)?;
            visit.answers.push_reserved(answer);
            visit.operations = number;
            return Ok((
                Reply::Acted {
                    rid,
                    number,
                    choice,
                    answer: kept,
                },
                Reply::Acted {
                    rid,
                    number,
                    choice,
                    answer: told,
                },
            ));
        }
        unreachable!()
    }

    /// The request at a seat ends.
    fn depart(&mut self, seat: u32, response: &Response, path: &Path) -> (Reply, Reply)
        requires { MayCome self.old seat (asks.Depart response.now path.now) }
        ensures { IsTaken seat (asks.Depart response.now path.now) self.old self.new (Ok result) }
    {
        let rid = self.rid_at(seat);
        clear_at(&mut self.visits, seat);
        (Reply::Departed { rid }, Reply::Departed { rid })
    }

    /// The id of the request at a seat; 0 where none is open.
    fn rid_at(&self, seat: u32) -> u32
        ensures { result ≡ rid_at (at_seat self.now.visits seat) }
    {
        match self.visits.get(seat as usize) {
            Some(Some(visit)) => visit.rid,
            Some(None) | None => 0,
        }
    }
}

fn one_more(count: u32) -> Result<u32, AllocError>
    ensures { IfOk result (λ more. more ≡ count + 1) }
{
    count.checked_add(1).ok_or(AllocError)
}

/// Does an operation that fits, with a choice that its object takes, and gives the answer three times.
#[tactic(auto, using(object_set::proofs::Sets::fits_op))]
fn thrice(
    objects: &mut ObjectSet,
    op: &Op,
    choice: Choice,
) -> Result<(Value, Value, Value), AllocError>
    requires fits { FitsSet objects.old op.now }
    requires taken { takes op.now choice objects.old ≡ true }
    ensures done { IfOk result (λ r. Does op.now choice objects.old objects.new r.0) }
    ensures same { IfOk result (λ r. (r.1 ≡ r.0) × (r.2 ≡ r.0)) }
    ensures err { OnErr result (objects.new ≡ objects.old) }
{
    match objects.apply_copies(op, choice, 3) {
        Ok(mut answers) => match (answers.pop(), answers.pop(), answers.pop()) {
            (Some(third), Some(second), Some(first)) => Ok((first, second, third)),
            _ => unreachable!(),
        },
        Err(OrMemory::Memory) => Err(AllocError),
        Err(OrMemory::Other(Refused)) => unreachable!(),
    }
}

/// The choice that is made of an offer.
fn choice_of(act: &Act, offer: Option<i64>, objects: &ObjectSet) -> Choice
    ensures { result ≡ choice_of act.now offer (reading objects.now.clock) }
{
    let last = objects.clock();
    match act {
        Act::Now => offer.map_or(Choice::Nothing, |time| Choice::Number(time.max(last))),
        Act::Roll(_) => offer.map_or(Choice::Nothing, Choice::Number),
        Act::Read
        | Act::Write(_)
        | Act::Get(_)
        | Act::Put(_, _)
        | Act::Remove(_)
        | Act::Transact(_) => Choice::Nothing,
    }
}
