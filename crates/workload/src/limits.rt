//! What a recording has of seats: docs/formats.md, "Turns".

ghost use Rattle.std.specs.Prelude.{◌≡◌};

/// How many seats a recording by turns has, numbered from 0.
pub const SEATS: u8 = 16;

/// The number of seats in digits, as docs/formats.md has it.
pub fn seats_in_digits()
    ensures { SEATS ≡ 16 }
{}
