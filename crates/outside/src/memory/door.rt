ghost use Rattle.std.specs.Prelude.{◌≡◌, ◌≢◌, ◌==◌, Some, Err, IfOk, map, vec_len};
ghost use Rattle.outside.specs.Doors.{new_door, IsAccepted};
ghost use Rattle.outside.specs.Failing.{IsPlanned, GoesAsPlanned};
ghost use Rattle.outside.specs.Links.{new_link};
ghost use Rattle.outside.specs.MemDoor.{link_to_come, visits_told, door_told, door_failing, door_plans};
ghost use Rattle.outside.specs.MemDoor.{IsLinkOf, IsFirstLink};
ghost use Rattle.outside.specs.MemLink.{link_told, link_failing, link_bound};

use crate::door::Door;
use crate::fault::Fault;
use crate::link::Link;
use crate::memory::failing::Failing;
use crate::memory::kept::{Kept, Visits};
use crate::memory::link::MemLink;
use std::alloc::{AllocError, Global};
use std::num::NonZeroUsize;

/// A link that is to come: what is read from it, which of its calls fail, and the most bytes that
/// it takes or gives at a time, where there is a bound.
#[derive(Drop)]
pub struct LinkPlan {
    pub bytes: Vec<u8>,
    pub failing: Vec<u64>,
    pub at_most: Option<NonZeroUsize>,
}

/// A door whose links lie ready.
#[derive(Drop)]
pub struct MemDoor {
    alloc: Global,
    pub(crate) visits: Visits,
    // Where its house keeps the doors that came back before it, so that taking it back needs no
    // memory.
    pub(crate) room: Box<Kept>,
}

impl MemDoor {
    /// A door at which these links come in, in order.
    pub fn new(alloc: Global, links: Vec<LinkPlan>, failing: Vec<u64>) -> Result<Self, AllocError>
        ensures told { IfOk result (λ door.
            door_told door ≡ new_door (map link_to_come links.items) (vec_len failing == 0)) }
        ensures planned { IfOk result (λ door. IsPlanned failing.items (door_failing door)) }
    {
        let room = Kept::room(alloc)?;
        Ok(MemDoor::in_room(alloc, links, failing, room))
    }

    /// The links that are still to come, how many came, and how often the door failed.
    pub fn visits(&self) -> &Visits
        ensures { visits_told result.now ≡ door_told self.now }
    {
        &self.visits
    }

    pub(crate) fn in_room(
        alloc: Global,
        links: Vec<LinkPlan>,
        failing: Vec<u64>,
        room: Box<Kept>,
    ) -> Self
        ensures told { door_told result
            ≡ new_door (map link_to_come links.items) (vec_len failing == 0) }
        ensures planned { IsPlanned failing.items (door_failing result) }
    {
        MemDoor {
            alloc,
            visits: Visits {
                coming: links.into(),
                taken: 0,
                failing: Failing::new(failing),
            },
            room,
        }
    }
}

impl Door for MemDoor {
    type End = MemLink;

    ghost told = { door_told };

    fn accept(&mut self) -> Result<MemLink, Fault>
        ensures used { IsAccepted link_told (door_told self.old) (door_told self.new) result }
        ensures planned { GoesAsPlanned (door_failing self.old) (door_failing self.new)
            (result ≡ Err Fault.Failed) }
        ensures link { IfOk result (IsFirstLink (door_plans self.old)) }
        ensures no_memory { result ≢ Err Fault.Memory }
    {
        if self.visits.failing.next_fails() {
            return Err(Fault::Failed);
        }
        self.visits.taken = self.visits.taken.saturating_add(1);
        Ok(match self.visits.coming.pop_front() {
            Some(plan) => planned(self.alloc, plan),
            None => MemLink::new(self.alloc, Vec::new(self.alloc), Vec::new(self.alloc)),
        })
    }
}

/// The link of a plan.
fn planned(alloc: Global, plan: LinkPlan) -> MemLink
    ensures told { link_told result ≡ new_link plan.bytes.items (vec_len plan.failing == 0) }
    ensures plan { IsLinkOf plan result }
{
    let link = MemLink::new(alloc, plan.bytes, plan.failing);
    match plan.at_most {
        Some(at_most) => link.in_pieces(at_most),
        None => link,
    }
}
