//! The counts, the logs and the groups of a report: the first that is wrong with them, and where
//! nothing is, where each operation stands.
#![tactic(auto)]

mod checking;
mod choices;
mod counting;
mod entries;
mod entry_fault;
mod grouping;
pub mod law;
mod log_objects;
pub mod op_map;
mod plausible;

pub use checking::check_logs;
pub use grouping::check_groups;
pub use op_map::OpMap;
