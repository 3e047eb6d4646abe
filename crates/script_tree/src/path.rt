ghost use Rattle.std.specs.Prelude.{◌≡◌};

use crate::fault::ScriptFault;
use basis::Items;

/// How a run ends.
#[derive(Clone, Copy, PartialEq, Eq, Hash)]
pub enum End {
    Normal,
    Fault(ScriptFault),
    /// The answer of an operation is beyond the limits of a value. Its number is that of
    /// `ScriptFault::TooLarge`, but the operation stands.
    AnswerFault,
}

/// The decisions of a run, in order.
pub type Decisions = Items<bool>;

/// The whole path of a run through its program: which page, each decision, the steps that were
/// spent, and how it ended. A recorder groups requests by their paths.
#[derive(PartialEq, Eq, Hash, Drop)]
pub struct Path {
    /// The number of the page among the program's pages, from 0; none where no page has the
    /// request's path.
    pub page: Option<u32>,
    pub decisions: Decisions,
    pub steps: u32,
    pub end: End,
}
