//! The jobs of a server and the turns of its seats, as JSON files: docs/formats.md, "Requests" and
//! "Turns".
#![tactic(auto)]

pub mod fault;
mod job;
pub mod law;
pub mod limits;
mod one_by_one;
pub mod requests;
mod tree;
pub mod turns;

pub use fault::WorkFault;
pub use requests::{Requests, read_requests};
pub use turns::{Turn, Turns, read_turns};
