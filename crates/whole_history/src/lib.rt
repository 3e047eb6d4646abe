//! The trace and the report of a whole history, and that they are accepted.
#![tactic(auto)]

mod copies;
pub mod reports;
pub mod traces;
mod walk;

pub use reports::report_of;
pub use traces::trace_of;
