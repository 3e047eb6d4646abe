//! The world outside, as the operating system has it. It tells no more than counts: what a file, or
//! a stream, holds is for the system to say.
#![tactic(auto)]

pub mod clock;
mod fault;
mod putting;
pub mod shelf;
pub mod sink;

pub use clock::SystemClock;
pub use shelf::FileShelf;
pub use sink::{StdSink, StreamSink};
