ghost use Rattle.std.specs.Prelude.{Some};

use crate::clock::Clock;

/// A clock that stands still at this reading.
#[derive(Clone, Copy, PartialEq, Eq)]
pub struct FixedClock(pub u64);

impl Clock for FixedClock {
    ghost reading = { λ clock. Some clock.0 };

    fn now(&self) -> u64 {
        self.0
    }
}
