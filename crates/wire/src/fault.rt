ghost use Rattle.std.specs.Prelude.{◌≡◌};
ghost use Rattle.basis.specs.declared.or_memory.OrMemory.TheVariants.{Other};

use basis::OrMemory;
use std::fmt;

/// No spelling of the field begins at this place, or none of a record that may stand there. Of a
/// file without its magic, the place is 0.
#[derive(Clone, Copy, PartialEq, Eq)]
pub struct Unreadable {
    pub at: usize,
}

/// The first record that would end past the limit of the file would begin at this place.
#[derive(Clone, Copy, PartialEq, Eq)]
pub struct PastLimit {
    pub at: usize,
}

impl fmt::Display for Unreadable {
    fn fmt<W: fmt::Write>(&self, f: &mut fmt::Formatter<W>) -> fmt::Result {
        write!(f, "unreadable at {}", self.at)
    }
}

impl fmt::Display for PastLimit {
    fn fmt<W: fmt::Write>(&self, f: &mut fmt::Formatter<W>) -> fmt::Result {
        write!(f, "past the limit at {}", self.at)
    }
}

impl From<Unreadable> for OrMemory<Unreadable> {
    ghost from_gives = { λ fault error. error ≡ Other fault };

    fn from(fault: Unreadable) -> OrMemory<Unreadable> {
        OrMemory::Other(fault)
    }
}
