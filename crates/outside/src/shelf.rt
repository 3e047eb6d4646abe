ghost use Rattle.std.specs.Prelude.{◌≡◌, ◌∷◌, [], List, Option};
ghost use Rattle.outside.specs.Shelves.{ShelfTold, ShelfCall, IsReadAt, IsPut, a_write, read_made, then_calls};

use crate::fault::{Fault, ShelfFault};

/// Files by name.
pub trait Shelf {
    /// What is told of the shelf.
    ghost told: { Self → ShelfTold };

    /// The calls that were made, in their order, where they are told. No shelf of this project
    /// tells them: a function that is given any shelf is proved for one that does.
    ghost calls: { Self → Option (List ShelfCall) };

    /// Reads from `offset` bytes into the file on, at most as much as `into` takes, and answers how
    /// many bytes were read: 0 into a piece that isn't empty is the end of the file. Where the read
    /// is refused, nothing is said of what is in `into`.
    fn read_at(&mut self, name: &str, offset: u64, into: &mut [u8]) -> Result<usize, ShelfFault>
        ensures used { IsReadAt (told self.old) (told self.new) name.now offset into.old
            into.new result }
        ensures made { calls self.new
            ≡ then_calls (calls self.old) (read_made name.now offset result ∷ []) };

    /// Puts these bytes under the name, in place of what was there.
    fn write(&mut self, name: &str, bytes: &[u8]) -> Result<(), Fault>
        ensures used { IsPut (told self.old) (told self.new) name.now bytes.now result }
        ensures made { calls self.new
            ≡ then_calls (calls self.old) (a_write name.now bytes.now ∷ []) };
}
