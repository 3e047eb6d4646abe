//! One node of a script's code, evaluated from its operands alone.
#![tactic(auto)]

pub mod evaluate;
pub mod filling;
pub mod law;
pub mod primitive;
pub mod steps;
