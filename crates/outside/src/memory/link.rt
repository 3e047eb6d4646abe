ghost use Rattle.std.specs.Prelude.{◌≡◌, ◌≢◌, ◌==◌, ◌≤◌, Some, Err, IfOk, length, min, vec_len};
ghost use Rattle.outside.specs.Failing.{IsPlanned, GoesAsPlanned};
ghost use Rattle.outside.specs.Links.{new_link, IsLinkRead, IsLinkWrite};
ghost use Rattle.outside.specs.Pieces.{piece_len};

use crate::fault::Fault;
use crate::link::Link;
use crate::memory::failing::Failing;
use crate::memory::pieces::{copy_front, piece_len};
use std::alloc::Global;
use std::num::NonZeroUsize;

/// A link whose bytes lie ready, and which keeps what is written.
#[derive(Drop)]
pub struct MemLink {
    bytes: Vec<u8>,
    taken: usize,
    written: Vec<u8>,
    at_most: Option<NonZeroUsize>,
    failing: Failing,
    ghost within: { taken ≤ vec_len bytes },
}

impl MemLink {
    ghost use Rattle.outside.specs.MemLink.{link_told, link_failing, link_bound};

    /// A link that takes and gives as much at a time as fits.
    pub fn new(alloc: Global, bytes: Vec<u8>, failing: Vec<u64>) -> Self
        ensures told { link_told result ≡ new_link bytes.items (vec_len failing == 0) }
        ensures planned { IsPlanned failing.items (link_failing result) }
        ensures bound { link_bound result ≡ None }
    {
        MemLink {
            bytes,
            taken: 0,
            written: Vec::new(alloc),
            at_most: None,
            failing: Failing::new(failing),
        }
    }

    /// The same link, which takes and gives at most so many bytes at a time.
    pub fn in_pieces(self, at_most: NonZeroUsize) -> Self
        ensures bound { link_bound result ≡ Some at_most }
        ensures told { link_told result ≡ link_told self }
        ensures failing { link_failing result ≡ link_failing self }
    {
        let mut link = self;
        link.at_most = Some(at_most);
        link
    }

    /// The bytes that are left to read.
    pub fn left(&self) -> &[u8]
        ensures { (link_told self.now).left ≡ Some result.now }
    {
        &self.bytes[self.taken..]
    }

    /// The bytes written so far.
    pub fn written(&self) -> &[u8]
        ensures { (link_told self.now).written ≡ Some result.now }
    {
        self.written.as_slice()
    }

    /// How often the link has failed.
    pub fn faults(&self) -> u64
        ensures { result ≡ (link_told self.now).faults }
    {
        self.failing.faults()
    }
}

impl Link for MemLink {
    ghost use Rattle.outside.specs.MemLink.{link_told, link_failing, link_bound, left_len};

    ghost told = { link_told };

    /// It gives as much as its bound lets it.
    fn read(&mut self, into: &mut [u8]) -> Result<usize, Fault>
        ensures used { IsLinkRead (link_told self.old) (link_told self.new) into.old
            into.new result }
        ensures planned { GoesAsPlanned (link_failing self.old) (link_failing self.new)
            (result ≡ Err Fault.Failed) }
        ensures count { IfOk result (λ count.
            count ≡ min (piece_len (link_bound self.old) (left_len self.old)) (length into.old)) }
        ensures bound { link_bound self.new ≡ link_bound self.old }
        ensures no_memory { result ≢ Err Fault.Memory }
    {
        if self.failing.next_fails() {
            return Err(Fault::Failed);
        }
        let left = &self.bytes[self.taken..];
        let count = copy_front(&left[..piece_len(left.len(), self.at_most)], into);
        self.taken += count;
        Ok(count)
    }

    /// It takes as much as its bound lets it.
    fn write(&mut self, bytes: &[u8]) -> Result<usize, Fault>
        ensures used { IsLinkWrite (link_told self.old) (link_told self.new) bytes.now result }
        ensures planned { GoesAsPlanned (link_failing self.old) (link_failing self.new)
            (result ≡ Err Fault.Failed) }
        ensures count { IfOk result (λ count.
            count ≡ piece_len (link_bound self.old) (length bytes.now)) }
        ensures bound { link_bound self.new ≡ link_bound self.old }
    {
        if self.failing.next_fails() {
            return Err(Fault::Failed);
        }
        let count = piece_len(bytes.len(), self.at_most);
        self.written.extend_from_slice(&bytes[..count])?;
        Ok(count)
    }
}
