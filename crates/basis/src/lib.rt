//! What every crate of the project needs beside std: a list that contracts see as its members, and
//! errors that leave room for running out of memory.
#![tactic(auto)]

mod items;
mod or_memory;

pub use items::Items;
pub use or_memory::OrMemory;
