//! What the project asks of the world outside: files by name, streams, connections, a clock and a
//! gate for tests, as traits. Memory implements them here; the operating system does elsewhere.
//!
//! What an object holds is told by its ghost member `told`, in parts that are optional: memory
//! tells it, and the real world tells no more than counts. Each call of a method is one fact about
//! what was told before and after it (`used`), and so is any number of reads or of writes
//! (`UsesShelf`, `UsesSink`).
#![tactic(auto)]

pub mod clock;
pub mod door;
pub mod fault;
pub mod gate;
pub mod house;
pub mod link;
pub mod memory;
pub mod shelf;
pub mod sink;

/// Where a count stays.
pub const LAST_COUNT: u64 = u64::MAX;

pub use clock::Clock;
pub use door::Door;
pub use fault::{Fault, ShelfFault};
pub use gate::Gate;
pub use house::House;
pub use link::Link;
pub use memory::{
    Back, DoorPlan, Failing, FixedClock, LinkPlan, MemDoor, MemHouse, MemLink, MemShelf, MemSink,
    OpenGate, Visits,
};
pub use shelf::Shelf;
pub use sink::Sink;
