//! A clock for recordings.
use outside::Clock;
use std::sync::atomic::{AtomicU64, Ordering};

/// It shows so much more at each reading.
#[derive(Drop)]
pub struct SteppingClock {
    next: AtomicU64,
    step: u64,
}

impl SteppingClock {
    pub fn new(first: u64, step: u64) -> SteppingClock {
        SteppingClock {
            next: AtomicU64::new(first),
            step,
        }
    }
}

impl Clock for SteppingClock {
    ghost use Rattle.std.specs.Prelude.{None};

    ghost reading = { λ _. None };

    fn now(&self) -> u64 {
        self.next.fetch_add(self.step, Ordering::Relaxed)
    }
}
