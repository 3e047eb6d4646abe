ghost use Rattle.std.specs.Prelude.{◌≡◌, ◌==◌, Some, Err, IfOk, length, vec_len};
ghost use Rattle.outside.specs.Failing.{IsPlanned, GoesAsPlanned};
ghost use Rattle.outside.specs.MemSink.{sink_told, sink_failing, sink_bound};
ghost use Rattle.outside.specs.Pieces.{piece_len};
ghost use Rattle.outside.specs.Sinks.{new_sink, IsSinkWrite};

use crate::fault::Fault;
use crate::memory::failing::Failing;
use crate::memory::pieces::piece_len;
use crate::sink::Sink;
use std::alloc::Global;
use std::num::NonZeroUsize;

/// A sink that keeps what is written.
#[derive(Drop)]
pub struct MemSink {
    written: Vec<u8>,
    at_most: Option<NonZeroUsize>,
    failing: Failing,
}

impl MemSink {
    /// A sink that takes at most so many bytes at a time, where a bound is given.
    pub fn new(alloc: Global, failing: Vec<u64>, at_most: Option<NonZeroUsize>) -> Self
        ensures told { sink_told result ≡ new_sink (vec_len failing == 0) }
        ensures planned { IsPlanned failing.items (sink_failing result) }
        ensures bound { sink_bound result ≡ at_most }
    {
        MemSink {
            written: Vec::new(alloc),
            at_most,
            failing: Failing::new(failing),
        }
    }

    /// The bytes written so far.
    pub fn written(&self) -> &[u8]
        ensures { (sink_told self.now).written ≡ Some result.now }
    {
        self.written.as_slice()
    }

    /// How often the sink has failed.
    pub fn faults(&self) -> u64
        ensures { result ≡ (sink_told self.now).faults }
    {
        self.failing.faults()
    }
}

impl Sink for MemSink {
    ghost told = { sink_told };

    /// It takes as much as its bound lets it.
    fn write(&mut self, bytes: &[u8]) -> Result<usize, Fault>
        ensures used { IsSinkWrite (sink_told self.old) (sink_told self.new) bytes.now result }
        ensures planned { GoesAsPlanned (sink_failing self.old) (sink_failing self.new)
            (result ≡ Err Fault.Failed) }
        ensures count { IfOk result (λ count.
            count ≡ piece_len (sink_bound self.old) (length bytes.now)) }
        ensures bound { sink_bound self.new ≡ sink_bound self.old }
    {
        if self.failing.next_fails() {
            return Err(Fault::Failed);
        }
        let count = piece_len(bytes.len(), self.at_most);
        self.written.extend_from_slice(&bytes[..count])?;
        Ok(count)
    }
}
