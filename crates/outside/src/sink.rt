ghost use Rattle.outside.specs.Sinks.{SinkTold, IsSinkWrite};

use crate::fault::Fault;

/// A stream that is only written, as standard output.
pub trait Sink {
    /// What is told of the sink.
    ghost told: { Self → SinkTold };

    /// Writes bytes from the front of these, and answers how many: at least one, unless there is
    /// none.
    fn write(&mut self, bytes: &[u8]) -> Result<usize, Fault>
        ensures used { IsSinkWrite (told self.old) (told self.new) bytes.now result };
}
