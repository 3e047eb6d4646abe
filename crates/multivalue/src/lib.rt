//! The values that the members of a group have at one place.
#![tactic(auto)]

mod apart;
pub mod law;
mod multi;

pub use apart::Apart;
pub use multi::Multi;
