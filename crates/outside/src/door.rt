ghost use Rattle.outside.specs.Doors.{DoorTold, IsAccepted};

use crate::fault::Fault;
use crate::link::Link;

/// Where connections come in, one after another.
pub trait Door {
    /// A connection that came in.
    type End: Link + Drop;

    /// What is told of the door.
    ghost told: { Self → DoorTold };

    /// Takes the first link that is still to come. Where none is left, it is one of no bytes. It
    /// may wait for one.
    fn accept(&mut self) -> Result<Self::End, Fault>
        ensures used { IsAccepted Self.End.told (told self.old) (told self.new) result };
}
