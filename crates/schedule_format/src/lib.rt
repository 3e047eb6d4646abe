//! Schedules in their binary format.
#![tactic(auto)]

pub mod decoding;
pub mod encoding;
mod format;
pub mod schedule_file;
