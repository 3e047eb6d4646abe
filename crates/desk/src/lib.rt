//! An object whose calls have one order, whichever seats they come from, and what its history is.
#![tactic(auto)]

pub mod bench;

pub use bench::{Bench, Call};
