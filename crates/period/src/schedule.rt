ghost use Rattle.std.specs.Prelude.{◌≡◌};

use basis::Items;
use script_tree::operation::Choice;

/// One moment of a schedule, with the id of a request.
#[derive(Clone, Copy, PartialEq, Eq)]
pub enum Moment {
    /// The request arrives.
    Arrive(u32),
    /// The request's next operation is done, with this choice.
    Act(u32, Choice),
    /// The request is answered.
    Depart(u32),
}

/// An order in which a period's requests can have been served, one moment after another.
pub type Schedule = Items<Moment>;
