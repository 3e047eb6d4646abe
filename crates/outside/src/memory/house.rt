ghost use Rattle.std.specs.Prelude.{◌≡◌, ◌≢◌, ◌==◌, Some, Err, IfOk, map, reverse, vec_len};
ghost use Rattle.outside.specs.Failing.{IsPlanned, GoesAsPlanned, SamePlan};
ghost use Rattle.outside.specs.Houses.{new_house, IsOpened, IsHandedOut, IsTakenBack};
ghost use Rattle.outside.specs.MemDoor.{visits_told, door_told};
ghost use Rattle.outside.specs.MemHouse.{door_to_come, house_told, house_failing, house_plans};
ghost use Rattle.outside.specs.MemHouse.{IsFirstDoor};

use crate::fault::Fault;
use crate::house::House;
use crate::memory::door::{LinkPlan, MemDoor};
use crate::memory::failing::Failing;
use crate::memory::kept::{Back, Kept};
use std::alloc::Global;
use std::collections::VecDeque;
use std::mem;

/// A door that is to come: its links, in order, and which of its calls fail.
#[derive(Drop)]
pub struct DoorPlan {
    pub links: Vec<LinkPlan>,
    pub failing: Vec<u64>,
}

/// A house whose doors lie ready, and which keeps those that came back.
#[derive(Drop)]
pub struct MemHouse {
    alloc: Global,
    coming: VecDeque<DoorPlan>,
    back: Kept,
    failing: Failing,
}

impl MemHouse {
    ghost use Rattle.outside.specs.Back.{visits_left};

    /// A house that hands out these doors, in order.
    pub fn new(alloc: Global, doors: Vec<DoorPlan>, failing: Vec<u64>) -> Self
        ensures told { house_told result
            ≡ new_house (map door_to_come doors.items) (vec_len failing == 0) }
        ensures planned { IsPlanned failing.items (house_failing result) }
    {
        MemHouse {
            alloc,
            coming: doors.into(),
            back: Kept::Nothing,
            failing: Failing::new(failing),
        }
    }

    /// The doors that came back, the last one first.
    pub fn back(&self) -> Back<'_>
        ensures { (house_told self.now).back
            ≡ Some (reverse (map visits_told (visits_left result))) }
    {
        Back { kept: &self.back }
    }

    /// How often the house has failed or taken back a door that had.
    pub fn faults(&self) -> u64
        ensures { result ≡ (house_told self.now).faults }
    {
        self.failing.faults()
    }
}

impl House for MemHouse {
    type Way = MemDoor;

    ghost told = { house_told };

    fn open(&mut self, _address: &str) -> Result<(), Fault>
        ensures used { IsOpened (house_told self.old) (house_told self.new) result }
        ensures planned { GoesAsPlanned (house_failing self.old) (house_failing self.new)
            (result ≡ Err Fault.Failed) }
        ensures no_memory { result ≢ Err Fault.Memory }
    {
        if self.failing.next_fails() {
            return Err(Fault::Failed);
        }
        Ok(())
    }

    fn door(&mut self) -> Result<MemDoor, Fault>
        ensures used { IsHandedOut door_told (house_told self.old) (house_told self.new) result }
        ensures planned { GoesAsPlanned (house_failing self.old) (house_failing self.new)
            (result ≡ Err Fault.Failed) }
        ensures door { IfOk result (IsFirstDoor (house_plans self.old)) }
    {
        if self.failing.next_fails() {
            return Err(Fault::Failed);
        }
        let room = Kept::room(self.alloc)?;
        let (links, failing) = match self.coming.pop_front() {
            Some(plan) => (plan.links, plan.failing),
            None => (Vec::new(self.alloc), Vec::new(self.alloc)),
        };
        Ok(MemDoor::in_room(self.alloc, links, failing, room))
    }

    fn done(&mut self, way: MemDoor)
        ensures used { IsTakenBack (house_told self.old) (house_told self.new) (door_told way) }
        ensures planned { SamePlan (house_failing self.old) (house_failing self.new) }
    {
        let MemDoor {
            visits,
            mut room,
            ..
        } = way;
        if visits.failing.faults() != 0 {
            self.failing.add_fault();
        }
        *room = mem::replace(&mut self.back, Kept::Nothing);
        self.back = Kept::Door(visits, room);
    }
}
