use std::fmt;

/// Why a shelf did not do what it was asked.
#[derive(Clone, Copy, PartialEq, Eq)]
pub enum ShelfFault {
    /// There is no file of that name.
    Absent,
    /// The shelf failed, and its count of faults has risen.
    Failed,
    /// It ran out of memory.
    Memory,
}

/// Why a stream, a door or a house did not do what it was asked.
#[derive(Clone, Copy, PartialEq, Eq)]
pub enum Fault {
    /// The object failed, and its count of faults has risen.
    Failed,
    /// It ran out of memory.
    Memory,
}

impl fmt::Display for ShelfFault {
    fn fmt<W: fmt::Write>(&self, f: &mut fmt::Formatter<W>) -> fmt::Result {
        match self {
            ShelfFault::Absent => write!(f, "absent"),
            ShelfFault::Failed => write!(f, "failed"),
            ShelfFault::Memory => write!(f, "out of memory"),
        }
    }
}

impl fmt::Display for Fault {
    fn fmt<W: fmt::Write>(&self, f: &mut fmt::Formatter<W>) -> fmt::Result {
        match self {
            Fault::Failed => write!(f, "failed"),
            Fault::Memory => write!(f, "out of memory"),
        }
    }
}
