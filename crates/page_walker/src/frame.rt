ghost use Rattle.std.specs.Prelude.{◌≤◌};
ghost use Rattle.script_tree.specs.declared.limits.TheConstants.{MOST_CALL_DEPTH};

use crate::walker::Walker;
use script_tree::value::Value;
use std::alloc::Global;

/// Where a run is in the calls of functions. What stays the same in it lies behind `walker`.
#[derive(Clone, Copy)]
pub struct Frame<'a, 'w, 'p> {
    pub walker: &'a Walker<'w, 'p>,
    pub alloc: Global,
    /// How many turns of a `while` and calls may still begin, one within another.
    pub fuel: u32,
    /// How many calls this one lies in.
    pub depth: u32,
    ghost deep: { depth ≤ MOST_CALL_DEPTH },
}

/// How a statement ends.
#[derive(Drop)]
pub enum Flow {
    /// The next statement is run.
    On,
    /// A function gives this value back, and a page ends.
    Back(Value),
}
