//! What objects held before each entry of their logs, and how each entry is answered there.
#![tactic(auto)]

mod acts;
pub mod fitting;
pub mod law;
pub mod logged;
mod selects;
mod sources;
pub mod store;
mod versions;

pub use logged::VersionedLog;
pub use store::VersionedStore;
