ghost use Rattle.std.specs.Prelude.{◌≡◌};
ghost use Rattle.period.specs.Groups.{IsGroupOf, IsSome};

use basis::Items;
use std::marker::Model;

/// The ids of requests that took the same path: at least one.
#[derive(Drop)]
pub struct Group {
    rids: Vec<u32>,
}

pub type Groups = Items<Group>;

impl Model for Group {
    ghost use Rattle.std.specs.Prelude.{List, ℕ};

    ghost Value = { List ℕ };

    ghost use Rattle.period.specs.GroupView.{rids_in, HasSome};

    ghost view = { rids_in };

    ghost invariant = { HasSome };
}

impl Group {
    /// The group of these requests, or `None` where there is none.
    pub fn new(rids: Vec<u32>) -> Option<Group>
        ensures { IsGroupOf rids.items result }
    {
        if rids.is_empty() {
            None
        } else {
            Some(Group { rids })
        }
    }

    pub fn rids(&self) -> &[u32]
        ensures rids { result.now ≡ self.now }
        ensures some { IsSome self.now }
    {
        &self.rids
    }
}
