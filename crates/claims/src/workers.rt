ghost use Rattle.std.specs.Prelude.{◌≡◌, ◌<◌, ◌≤◌};
ghost use Rattle.std.specs.Option.{SomeIff};
ghost use Rattle.claims.specs.Workers.{MayBe};

use std::marker::Model;

/// How many workers there may be.
pub const MOST_WORKERS: u32 = 16;

/// That number in digits, as docs/formats.md has it.
pub fn workers_in_digits()
    ensures { MOST_WORKERS ≡ 16 }
{}

/// How many workers draw, at least one. Contracts see the number.
#[derive(Clone, Copy, PartialEq, Eq)]
pub struct Workers {
    count: u32,
}

impl Model for Workers {
    ghost use Rattle.std.specs.Prelude.{ℕ};
    ghost use Rattle.claims.specs.Workers.{MayBe};

    ghost Value = { ℕ };

    ghost inverse = { λ count. record { count = count } };

    ghost view = { λ workers. workers.count };

    ghost invariant = { λ workers. MayBe workers.count };
}

impl Workers {
    /// So many, or `None` where there may not be so many.
    pub fn new(count: u32) -> Option<Workers>
        ensures { SomeIff result (MayBe count) count }
    {
        if 0 < count && count <= MOST_WORKERS {
            Some(Workers { count })
        } else {
            None
        }
    }

    /// How many there are.
    pub fn count(self) -> u32
        ensures count { result ≡ self }
        ensures may { MayBe result }
    {
        self.count
    }
}
