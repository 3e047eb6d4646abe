//! Numbers that many workers draw, each at most once, and the least of those that they lower to.
#![tactic(auto)]

mod claims;
mod rule;
mod view;
mod workers;

pub use claims::{ClaimSeat, Claims, Closed};
pub use view::View;
pub use workers::{MOST_WORKERS, Workers, workers_in_digits};
