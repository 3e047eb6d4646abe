ghost use Rattle.std.specs.Prelude.{◌++◌, ◌≡◌, ◌≤◌, ◌<◌, ◌^◌, length, IfOk, IfSome, OnOk};
ghost use Rattle.wire.specs.Files.{Decodes, Encodes, HasLen};
ghost use Rattle.wire.specs.FileReaders.{Begins, ReadsNext, IsNearer};
ghost use Rattle.wire.specs.Files.{record_spelling, file_spelling};

use crate::fault::{PastLimit, Unreadable};
use crate::field::frame;
use crate::limits::MOST_RECORD_BYTES;
use crate::record::{RecordReader, RecordWriter};
use crate::writing::write_u32;
use basis::{Items, OrMemory};
use std::alloc::{AllocError, Global};

/// A file whose records are read one after another, up to a place.
#[derive(Drop)]
pub(crate) struct FileReader<'a, R> {
    reader: R,
    bytes: &'a [u8],
    at: usize,
}

impl<'a, R: RecordReader> FileReader<'a, R> {
    /// Before the first record.
    pub(crate) fn new(bytes: &'a [u8]) -> Result<FileReader<'a, R>, Unreadable>
        ensures { Begins R.format R.HasRead bytes.now result }
    {
        let magic = R::magic();
        if !bytes.starts_with(magic) {
            return Err(Unreadable { at: 0 });
        }
        Ok(FileReader {
            reader: R::new(),
            bytes,
            at: magic.len(),
        })
    }

    /// The place and the item of the next record, or `None` behind the last one.
    pub(crate) fn next(
        &mut self,
        alloc: Global,
    ) -> Result<Option<(usize, R::Item)>, OrMemory<Unreadable>>
        ensures reads { ReadsNext R.format R.HasRead self.old self.new result }
        ensures nearer { IfOk result (λ o. IfSome o (λ _. IsNearer self.old self.new)) }
    {
        let at = self.at;
        if at == self.bytes.len() {
            return Ok(None);
        }
        let (payload, next) = frame(self.bytes, at)?;
        match self.reader.read(alloc, payload) {
            Ok(item) => {
                self.at = next;
                Ok(Some((at, item)))
            }
            Err(OrMemory::Memory) => Err(OrMemory::Memory),
            Err(OrMemory::Other(_)) => Err(OrMemory::Other(Unreadable { at })),
        }
    }
}

/// The items of the records of the whole file.
pub fn read_file<R: RecordReader>(
    alloc: Global,
    bytes: &[u8],
) -> Result<Items<R::Item>, OrMemory<Unreadable>>
    ensures { Decodes R.format bytes.now result }
{
    let mut file = FileReader::<R>::new(bytes)?;
    let mut items = Vec::new(alloc);
    while let Some((_, item)) = file.next(alloc)? {
        items.push(item)?;
    }
    Ok(Items::from_vec(items))
}

/// How many bytes the payload of the item's record has, or `None` where the record has more than
/// there is room.
fn payload_len<W: RecordWriter>(room: usize, item: &W::Item) -> Option<usize>
    ensures { HasLen room (W.format.payload item.now) result }
{
    let room = room.checked_sub(4)?;
    let left = W::room_behind(room, item)?;
    Some(room - left)
}

/// Writes the record of an item whose payload has so many bytes.
fn write_record<W: RecordWriter>(
    out: &mut Vec<u8>,
    item: &W::Item,
    len: u32,
) -> Result<(), AllocError>
    requires { len ≡ length (W.format.payload item.now) }
    ensures { OnOk result (out.new.items ≡ out.old.items ++ record_spelling W.format item.now) }
{
    write_u32(out, len)?;
    W::write(out, item)
}

/// The file of these items.
pub fn write_file<W: RecordWriter>(
    alloc: Global,
    items: &Items<W::Item>,
) -> Result<Vec<u8>, AllocError>
    requires short { (x : W.Item) → length (W.format.payload x) < 2 ^ 32 }
    ensures { IfOk result (λ bytes. bytes.items ≡ file_spelling W.format items.now) }
{
    let items = items.as_slice();
    let mut out = Vec::from_slice(alloc, W::magic())?;
    for item in items {
        let len = payload_len::<W>(MOST_RECORD_BYTES, item).unwrap();
        write_record::<W>(&mut out, item, len as u32)?;
    }
    Ok(out)
}

/// The same, or the first record that would end past the limit.
pub fn write_file_within<W: RecordWriter>(
    alloc: Global,
    limit: usize,
    items: &Items<W::Item>,
) -> Result<Vec<u8>, OrMemory<PastLimit>>
    requires magic { length W.format.magic ≤ limit }
    requires short { limit ≤ MOST_RECORD_BYTES }
    ensures { Encodes (λ out. out.items) W.format limit items.now result }
{
    let items = items.as_slice();
    let mut out = Vec::from_slice(alloc, W::magic())?;
    for item in items {
        let at = out.len();
        let Some(len) = payload_len::<W>(limit - at, item) else {
            return Err(OrMemory::Other(PastLimit { at }));
        };
        write_record::<W>(&mut out, item, len as u32)?;
    }
    Ok(out)
}
