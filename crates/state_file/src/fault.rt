ghost use Rattle.std.specs.Prelude.{◌≡◌};
ghost use Rattle.state_file.specs.States.{fault_kind};

use std::fmt;

/// What is wrong with a state.
#[derive(Clone, Copy, PartialEq, Eq)]
pub enum StateFault {
    NotJson,
    /// Another shape, an unknown member, or a number that isn't a whole one of 64 bits.
    OtherShape,
    /// A store or a table that the program doesn't declare.
    Undeclared,
    /// A value, a name or a key is too long or too deep, or the clock stands below 0.
    BeyondLimit,
    /// A register or a key is given twice, or a row isn't one of its table.
    Unstorable,
}

impl StateFault {
    /// The number by which it is printed; of several faults that with the least one is.
    pub fn kind(self) -> u8
        ensures { result ≡ fault_kind self }
    {
        match self {
            StateFault::NotJson => 1,
            StateFault::OtherShape => 2,
            StateFault::Undeclared => 3,
            StateFault::BeyondLimit => 4,
            StateFault::Unstorable => 5,
        }
    }
}

impl fmt::Display for StateFault {
    ghost use Rattle.std.specs.Prelude.{Some};
    ghost use Rattle.state_file.specs.FaultTexts.{state_fault_text};

    ghost output = { λ fault. Some (state_fault_text fault) };

    fn fmt<W: fmt::Write>(&self, f: &mut fmt::Formatter<W>) -> fmt::Result {
        write!(f, "kind {}", self.kind())
    }
}
