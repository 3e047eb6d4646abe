ghost use Rattle.trace_and_report.specs.Written.{TellsTooLong};

use wire::limits::MOST_FILE_BYTES;

/// The files of a recording, and what is told of it.
#[derive(Drop)]
pub struct Recorded {
    pub trace: Vec<u8>,
    pub report: Vec<u8>,
    /// How many requests arrived.
    pub requests: usize,
    /// How many paths they took.
    pub groups: usize,
}

/// Which file would be longer than a file may be.
#[derive(Clone, Copy, PartialEq, Eq)]
pub enum TooLong {
    Trace,
    Report,
}

impl Recorded {
    /// The first file that is longer than a file may be, if one is. Only where none is, the files are
    /// read again.
    pub fn too_long(&self) -> Option<TooLong>
        ensures { TellsTooLong self.now result }
    {
        if self.trace.len() > MOST_FILE_BYTES {
            Some(TooLong::Trace)
        } else if self.report.len() > MOST_FILE_BYTES {
            Some(TooLong::Report)
        } else {
            None
        }
    }
}
