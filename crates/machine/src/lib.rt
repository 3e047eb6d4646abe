//! The resumable machine: it runs the code of a request's page up to each operation, and goes on with
//! the operation's answer. It does what the conduct of `script_meaning` says.
#![tactic(auto)]

mod account;
mod cell;
mod ending;
mod frames;
mod machine;
mod run;
mod spending;
mod stack;
mod state;
mod stopped;

pub use account::BareMark;
pub use ending::MachineStep;
pub use machine::Machine;
