//! Where a group is in the code of its page, with its calls, and the instructions that all members do
//! up to the next operation that they want, or to the end.
#![tactic(auto)]

mod acting;
mod answering;
mod calling;
mod jumping;
mod looping;
mod run;

pub use run::{Frame, Run};
