//! A schedule against a trace: it agrees, or the first moment that differs, and why.
#![tactic(auto)]

pub mod law;
pub mod open_request;
pub mod plain_runner;
pub mod reason;
pub mod replay;
pub mod runner;
pub mod stage;
pub mod standing;

pub use reason::{Reason, ReplayReason, Replayed};
