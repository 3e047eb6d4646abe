ghost use Rattle.std.specs.Prelude.{◌≤◌};
ghost use Rattle.script_tree.specs.declared.limits.TheConstants.{MOST_STEPS, MOST_OPERATIONS};

use multi_bodies::Bodies;
use multivalue::Multi;
use script_tree::limits::{MOST_OPERATIONS, MOST_STEPS};

/// A mark that each member left: a decision, or that an operation was answered, whichever it was.
#[derive(Clone, Copy, PartialEq, Eq)]
pub enum BareMark {
    Decided(bool),
    Issued,
}

/// What each member spent and did so far.
#[derive(Drop)]
pub struct Account {
    pub steps: u32,
    pub operations: u32,
    pub trail: Vec<BareMark>,
    /// The statuses of the responses, as numbers.
    pub status: Multi,
    pub bodies: Bodies,
    ghost spent: { steps ≤ MOST_STEPS },
    ghost issued: { operations ≤ MOST_OPERATIONS },
}
