ghost use Rattle.outside.specs.Links.{LinkTold, IsLinkRead, IsLinkWrite};

use crate::fault::Fault;

/// One connection: a stream that is read and written.
pub trait Link {
    /// What is told of the link.
    ghost told: { Self → LinkTold };

    /// Reads at most as much as `into` takes, and answers how many bytes were read: 0 into a piece
    /// that isn't empty is the link's end. Where the read is refused, nothing is said of what is in
    /// `into`.
    fn read(&mut self, into: &mut [u8]) -> Result<usize, Fault>
        ensures used { IsLinkRead (told self.old) (told self.new) into.old into.new result };

    /// Writes bytes from the front of these, and answers how many: at least one, unless there is
    /// none.
    fn write(&mut self, bytes: &[u8]) -> Result<usize, Fault>
        ensures used { IsLinkWrite (told self.old) (told self.new) bytes.now result };
}
