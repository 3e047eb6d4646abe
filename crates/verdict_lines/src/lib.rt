//! How a rejection is told: the line of each reason for which a report is rejected.
#![tactic(auto)]

mod fields;
pub mod rejection;

pub use rejection::rejection_line;
