//! The words of a command line, and what they ask for: docs/formats.md, "Commands".
#![tactic(auto)]

mod arguments;
mod audit_words;
mod command;
mod record_words;
mod replay_names;
mod words;

pub use audit_words::AuditWords;
pub use command::Command;
pub use record_words::RecordWords;
pub use replay_names::ReplayNames;
pub use words::Words;
