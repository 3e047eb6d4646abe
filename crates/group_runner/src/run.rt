use machine::{Machine, MachineStep};

/// A request's run against a report, as far as its operations are those that the report has.
#[derive(Drop)]
pub(crate) struct Run<'c> {
    pub machine: Machine<'c>,
    /// How many operations were answered.
    pub done: u32,
    /// What it wants then, or how it ended.
    pub step: MachineStep,
}
