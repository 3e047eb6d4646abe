//! The groups of a report, run against it: each in lockstep, and where that shows that something is
//! wrong, one member after the other to tell what.
#![tactic(auto)]

mod groups;
mod lockstep;

pub use groups::run_groups;
