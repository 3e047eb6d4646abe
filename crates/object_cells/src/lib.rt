//! Registers, and the stores of a program: values under texts, in ordered maps.
#![tactic(auto)]

pub mod cells;
pub mod stores;

pub use cells::{Cells, Registers, Store};
pub use stores::Stores;
