ghost use Rattle.std.specs.Prelude.{◌≡◌, [], Some, IfOk, IfSome, length};
ghost use Rattle.std.specs.Iterator.{YieldsFirstRef, item_count};

use crate::memory::door::LinkPlan;
use crate::memory::failing::Failing;
use std::alloc::{AllocError, Global};
use std::collections::VecDeque;

/// The links of a door that are still to come, how many came, and which calls fail.
#[derive(Drop)]
pub struct Visits {
    pub(crate) coming: VecDeque<LinkPlan>,
    pub(crate) taken: u64,
    pub(crate) failing: Failing,
}

impl Visits {
    ghost use Rattle.outside.specs.MemDoor.{visits_told};

    /// How many links never came.
    pub fn left(&self) -> usize
        ensures { IfSome (visits_told self.now).coming (λ links. result ≡ length links) }
    {
        self.coming.len()
    }

    /// How many links came.
    pub fn taken(&self) -> u64
        ensures { (visits_told self.now).taken ≡ Some result }
    {
        self.taken
    }

    /// How often the door failed.
    pub fn faults(&self) -> u64
        ensures { result ≡ (visits_told self.now).faults }
    {
        self.failing.faults()
    }
}

/// The doors that came back, the last one first. Each lies in the room that it brought.
pub(crate) enum Kept {
    Nothing,
    Door(Visits, Box<Kept>),
}

impl Kept {
    ghost use Rattle.outside.specs.Kept.{visits_kept};

    /// Room for the doors that came back before another.
    pub(crate) fn room(alloc: Global) -> Result<Box<Kept>, AllocError>
        ensures { IfOk result (λ room. visits_kept room.value ≡ []) }
    {
        Ok(Box::new(alloc, Kept::Nothing)?)
    }
}

impl Drop for Kept {
    fn drop(mut self) {
        loop {
            match self {
                Kept::Nothing => return,
                Kept::Door(visits, before) => {
                    drop(visits);
                    self = Box::into_inner(before);
                }
            }
        }
    }
}

/// The doors that came back to a house, the last one first.
#[derive(Clone, Copy)]
pub struct Back<'a> {
    pub(crate) kept: &'a Kept,
}

impl<'a> Iterator for Back<'a> {
    ghost use Rattle.outside.specs.Back.{visits_left};

    type Item = &'a Visits;

    ghost next_gives = { YieldsFirstRef visits_left };

    ghost remaining = { item_count visits_left };

    fn next(&mut self) -> Option<&'a Visits> {
        match self.kept {
            Kept::Nothing => None,
            Kept::Door(visits, before) => {
                self.kept = before;
                Some(visits)
            }
        }
    }
}
