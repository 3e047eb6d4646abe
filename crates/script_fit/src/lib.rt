//! Which operations fit a program, and that objects that fit it stay so.
#![tactic(auto)]

pub mod law;
