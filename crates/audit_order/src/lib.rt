//! The events of a report in their order, or the cycle that keeps them from one, and an order of
//! them as a schedule.
#![tactic(auto)]

mod building;
pub mod law;
mod linking;
mod numbering;
mod ordering;
mod scheduling;

pub use building::order_events;
pub use ordering::Ordered;
pub use scheduling::schedule_of;
