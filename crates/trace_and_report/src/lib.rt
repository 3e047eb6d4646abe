//! The files of a recording: the trace and the report of what happened, written while it happens.
#![tactic(auto)]

pub mod counts;
mod draft;
pub mod grouped;
mod journal;
mod logs;
pub mod recorded;
pub mod widths;
mod writing;

pub use journal::FileJournal;
pub use recorded::{Recorded, TooLong};
