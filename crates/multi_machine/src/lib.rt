//! The machine of a group: it runs the code of a page for many requests at once, as far as all of
//! them go the same way.
#![tactic(auto)]

mod ending;
pub mod law;
mod machine;

pub use ending::Ended;
pub use machine::{GroupStep, Waiting, start};
