//! What registers and stores held over time: the values of each cell by position in a log.
#![tactic(auto)]

pub mod histories;
pub mod history;
pub mod position;
pub mod register;
pub mod store;

pub use histories::Histories;
pub use history::History;
pub use position::next_position;
pub use register::{register_answer, register_history};
pub use store::{store_answer, store_histories};
