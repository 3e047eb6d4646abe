//! The plain walker: it runs a request's page by walking its tree, and does what the conduct of
//! `script_meaning` says, for the whole language.
#![tactic(auto)]

mod declared;
mod ending;
mod expressions;
mod first;
mod frame;
mod queries;
mod run;
mod statements;
mod variables;
mod walker;

pub use ending::WalkerStep;
pub use walker::Walker;
