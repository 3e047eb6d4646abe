//! The world outside, kept in memory: for tests, and for proofs that run on content that is told.
ghost use Rattle.std.specs.Prelude.{◌≡◌};
ghost use Rattle.outside.specs.declared.fault.Fault.TheVariants.{Memory};

pub mod clock;
pub mod door;
pub mod failing;
pub mod gate;
pub mod house;
pub(crate) mod kept;
pub mod link;
pub(crate) mod pieces;
pub mod shelf;
pub mod sink;

use crate::fault::Fault;
pub use clock::FixedClock;
pub use door::{LinkPlan, MemDoor};
pub use failing::Failing;
pub use gate::OpenGate;
pub use house::{DoorPlan, MemHouse};
pub use kept::{Back, Visits};
pub use link::MemLink;
pub use shelf::MemShelf;
pub use sink::MemSink;
use std::alloc::AllocError;

impl From<AllocError> for Fault {
    ghost from_gives = { λ _ fault. fault ≡ Memory };

    fn from(_: AllocError) -> Fault {
        Fault::Memory
    }
}
