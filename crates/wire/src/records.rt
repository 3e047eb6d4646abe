ghost use Rattle.std.specs.Prelude.{◌≡◌, ◌<◌, Some, IfOk, length};
ghost use Rattle.basis.specs.Lists.{nth};
ghost use Rattle.wire.specs.Recorded.{Splits};

use crate::fault::Unreadable;
use crate::field::frame;
use crate::file::FileReader;
use crate::record::RecordReader;
use basis::OrMemory;
use std::alloc::{AllocError, Global};
use std::marker::Model;

/// A file of records that was read. It keeps the bytes as they are, and where each record begins.
/// Contracts see the payloads of the records.
#[derive(Drop)]
pub struct Records {
    bytes: Vec<u8>,
    places: Vec<u32>,
}

impl Model for Records {
    ghost use Rattle.std.specs.Prelude.{List, ℕ};

    ghost Value = { List (List ℕ) };

    ghost use Rattle.wire.specs.RecordsView.{payloads_in, AreRecords};

    ghost view = { payloads_in };

    ghost invariant = { AreRecords };
}

impl Records {
    /// The records of the whole file.
    pub fn read<R: RecordReader>(
        alloc: Global,
        bytes: Vec<u8>,
    ) -> Result<Records, OrMemory<Unreadable>>
        ensures { Splits R.format bytes.items result }
    {
        let mut file = FileReader::<R>::new(&bytes)?;
        let mut places = Vec::new(alloc);
        while let Some((at, _)) = file.next(alloc)? {
            places.push(as_place(at)?)?;
        }
        drop(file);
        Ok(Records { bytes, places })
    }

    /// How many records there are.
    pub fn len(&self) -> usize
        ensures { result ≡ length self.now }
    {
        self.places.len()
    }

    /// The payload of a record.
    pub fn payload(&self, place: usize) -> &[u8]
        requires { place < length self.now }
        ensures { nth self.now place ≡ Some result.now }
    {
        match frame(&self.bytes, self.places[place] as usize) {
            Ok((payload, _)) => payload,
            Err(_) => unreachable!(),
        }
    }
}

/// A place of a file, of at most 4 GiB. One that 32 bits don't hold is answered as want of memory.
fn as_place(at: usize) -> Result<u32, AllocError>
    ensures { IfOk result (λ place. place ≡ at) }
{
    u32::try_from(at).map_err(|_| AllocError)
}
