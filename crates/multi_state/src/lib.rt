//! What the members of a group have at hand in one function, what each spent and did so far, and the
//! instructions after which the next one is done.
#![tactic(auto)]

mod account;
mod doing;
mod given;
pub mod law;
mod spending;
mod stack;
mod state;
mod storing;
mod went;

pub use account::{Account, BareMark};
pub use given::Given;
pub use stack::Stack;
pub use state::State;
pub use went::Went;
