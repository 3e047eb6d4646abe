//! The state that a program starts with, as a JSON file: docs/formats.md, "State".
#![tactic(auto)]

pub mod fault;
pub mod given;
pub mod law;
mod limits;
pub mod state;
mod stored;
mod value;

pub use fault::StateFault;
pub use state::read_state;
