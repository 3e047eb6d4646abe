//! A group of a report, run against it: each member on the machine, one after the other, with the
//! answers that the logs give.
#![tactic(auto)]

pub mod evidence;
mod findings;
pub mod groups;
mod mark;
mod member;
mod run;
mod runner;

pub use evidence::Evidence;
pub use groups::{run_one_by_one, together};
pub use runner::is_same_response;
