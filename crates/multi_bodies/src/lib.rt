//! The bodies of the responses of a group's members, as pieces that are one text for all or one for
//! each.
#![tactic(auto)]

mod bodies;

pub use bodies::Bodies;
