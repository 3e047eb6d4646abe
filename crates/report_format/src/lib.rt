//! Reports in their binary format.
#![tactic(auto)]

pub mod appending;
pub mod decoding;
pub mod encoding;
mod fields;
pub mod format;
pub mod law;
mod operations;
mod parts;
mod records;
mod value_room;
