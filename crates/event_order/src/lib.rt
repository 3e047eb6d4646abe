//! The order of the events of an audit, or a cycle of events where they have none.
#![tactic(auto)]

pub mod graph;
pub mod laws;
pub mod ordering;
mod placing;
mod walking;
mod window;
