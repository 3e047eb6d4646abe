ghost use Rattle.outside.specs.Houses.{HouseTold, IsOpened, IsHandedOut, IsTakenBack};

use crate::door::Door;
use crate::fault::Fault;

/// What hands out doors at an address, one for each worker, and takes them back.
pub trait House {
    /// A door of the house.
    type Way: Door + Send + Drop;

    /// What is told of the house.
    ghost told: { Self → HouseTold };

    /// Opens the house at an address. This comes before the first door.
    fn open(&mut self, address: &str) -> Result<(), Fault>
        ensures used { IsOpened (told self.old) (told self.new) result };

    /// Hands out the first door that is still to come. Where none is left, it is one without links.
    fn door(&mut self) -> Result<Self::Way, Fault>
        ensures used { IsHandedOut Self.Way.told (told self.old) (told self.new) result };

    /// Takes a door back, and counts a fault where the door has failed.
    fn done(&mut self, way: Self::Way)
        ensures used { IsTakenBack (told self.old) (told self.new) (Self.Way.told way) };
}
