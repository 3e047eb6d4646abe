//! What happens while requests are answered, and what its trace and its report are.
#![tactic(auto)]

pub mod event;
pub mod happening;
pub mod journal;
pub mod law;
pub mod recorder;
pub mod recording;
pub mod seats;
mod visit;

pub use event::{Event, Reply};
pub use happening::{Happening, History, happening_by};
pub use journal::Journal;
pub use recorder::Recorder;
pub use recording::Recording;
