//! One node of a script's code for all members of a group: evaluated once where what it takes is
//! the same for all, else once for each.
#![tactic(auto)]

mod evaluate;
mod evaluations;
mod group;
mod together;

pub use evaluate::{evaluate_members, is_shared};
pub use evaluations::Evaluations;
pub use group::Group;
pub use together::Together;
