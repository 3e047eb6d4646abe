ghost use Rattle.std.specs.Prelude.{List, [], ◌++◌, ◌≡◌, ◌<◌, ◌^◌, length, OnOk};
ghost use Rattle.wire.specs.Files.{Format, TakesNext, GoesOn, LeavesRoom};

use crate::fault::Unreadable;
use basis::OrMemory;
use std::alloc::{AllocError, Global};

/// A kind of file: a magic, and records up to the end.
pub trait RecordFormat {
    type Item: Drop;

    ghost format: { Format Self.Item };

    fn magic() -> &'static [u8]
        ensures { result.now ≡ format.magic };
}

/// A reader of the records of a file, one after another. It keeps what it needs of those before.
pub trait RecordReader: RecordFormat + Drop {
    ghost HasRead: { Self → List Self.Item → Type 0 };

    /// The reader of a file's first record.
    fn new() -> Self
        ensures { HasRead result [] };

    /// The item whose payload this is. It doesn't matter which place a fault names.
    fn read(&mut self, alloc: Global, payload: &[u8]) -> Result<Self::Item, OrMemory<Unreadable>>
        ensures takes { TakesNext Self.format HasRead self.old payload.now result }
        ensures goes_on { GoesOn HasRead self.old self.new result };
}

/// A writer of the records of a file.
pub trait RecordWriter: RecordFormat {
    /// What is left of so much room behind the payload of the item's record, or `None` where the
    /// payload is longer.
    fn room_behind(room: usize, item: &Self::Item) -> Option<usize>
        ensures { LeavesRoom room (Self.format.payload item.now) result };

    /// Writes the payload of the item's record.
    fn write(out: &mut Vec<u8>, item: &Self::Item) -> Result<(), AllocError>
        requires { length (Self.format.payload item.now) < 2 ^ 32 }
        ensures { OnOk result (out.new.items ≡ out.old.items ++ Self.format.payload item.now) };
}
