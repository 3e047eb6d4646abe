//! All objects of a program: its registers, its stores, its tables, the clock and the dice.
#![tactic(auto)]

mod of_program;
pub mod set;

pub use set::{ObjectSet, Refused};
