//! Fields of binary files, each read from a slice at a place or written at the end of a vector, and
//! what a file of records is. Values alone take memory to read.
#![tactic(auto)]

pub mod fault;
pub mod field;
pub mod file;
pub mod laws;
pub mod limits;
pub mod record;
pub mod records;
pub mod value_reading;
pub mod value_writing;
pub mod writing;
