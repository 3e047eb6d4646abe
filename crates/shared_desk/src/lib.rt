//! The desk at which many threads make calls of one bench, each of them one step of one history.
#![tactic(auto)]

mod kept;
mod rule;
mod shared;

pub use kept::{CallJournal, Kept, KeptOf};
pub use rule::View;
pub use shared::{Desk, DeskSeat, MOST_SEATS};
