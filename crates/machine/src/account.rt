ghost use Rattle.std.specs.Prelude.{◌≤◌};
ghost use Rattle.script_tree.specs.declared.limits.TheConstants.{MOST_STEPS, MOST_OPERATIONS};

use script_tree::limits::{MOST_OPERATIONS, MOST_STEPS};
use script_values::Output;

/// A mark of a run's trail: a decision, or that an operation was answered, whichever it was.
#[derive(Clone, Copy, PartialEq, Eq)]
pub enum BareMark {
    Decided(bool),
    Issued,
}

/// What a run spent and did so far.
#[derive(Drop)]
pub(crate) struct Account {
    pub(crate) steps: u32,
    pub(crate) operations: u32,
    pub(crate) trail: Vec<BareMark>,
    pub(crate) output: Output,
    ghost spent: { steps ≤ MOST_STEPS },
    ghost issued: { operations ≤ MOST_OPERATIONS },
}
