ghost use Rattle.std.specs.Prelude.{◌≡◌};
ghost use Rattle.workload.specs.Files.{fault_kind};

use std::fmt;

/// What is wrong with a file of requests or of turns.
#[derive(Clone, Copy, PartialEq, Eq)]
pub enum WorkFault {
    NotJson,
    /// Another shape, an unknown member, a job without a path, or a number that isn't a whole one
    /// of 64 bits.
    OtherShape,
    /// A text is too long, there are too many parameters or jobs, or a turn is of no seat.
    BeyondLimit,
}

impl WorkFault {
    /// The number by which it is printed; of several faults that with the least one is.
    pub fn kind(self) -> u8
        ensures { result ≡ fault_kind self }
    {
        match self {
            WorkFault::NotJson => 1,
            WorkFault::OtherShape => 2,
            WorkFault::BeyondLimit => 4,
        }
    }
}

impl fmt::Display for WorkFault {
    ghost use Rattle.std.specs.Prelude.{Some};
    ghost use Rattle.workload.specs.FaultTexts.{work_fault_text};

    ghost output = { λ fault. Some (work_fault_text fault) };

    fn fmt<W: fmt::Write>(&self, f: &mut fmt::Formatter<W>) -> fmt::Result {
        write!(f, "kind {}", self.kind())
    }
}
