//! What the pages of a program ask shared objects for.
#![tactic(auto)]

pub mod law;
