//! The random numbers of a recording: docs/formats.md, "Random numbers".
#![tactic(auto)]

mod dice;

pub use dice::Dice;
