//! Traces in their binary format, and whether a trace is balanced.
#![tactic(auto)]

pub mod appending;
pub mod balance;
pub mod decoding;
pub mod encoding;
mod format;
pub mod packed;
mod request;
pub mod trace_file;
