ghost use Rattle.std.specs.Prelude.{◌≡◌, ℕ, Option};
ghost use Rattle.std.specs.Option.{ForSome};

/// A clock.
pub trait Clock {
    /// The reading, where it is told to stand still.
    ghost reading: { Self → Option ℕ };

    /// Milliseconds since the start of 1970.
    fn now(&self) -> u64
        ensures { ForSome (reading self.now) (λ reading. result ≡ reading) };
}
