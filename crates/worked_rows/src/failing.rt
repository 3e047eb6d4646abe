//! Runs of a row in which one call fails, each call in turn.
use crate::row::{Row, number_of};
use crate::runs::{Kind, Run, outputs_of, shelf_of};
use outside::{MemShelf, MemSink};
use std::io::{self, ErrorKind};
use std::num::NonZeroUsize;
use std::sync::Wait;
use std::thread::Threads;

/// The status of a run in which a call fails.
const FAILED: u8 = 4;

/// A row that is run again and again, over its inputs each time.
#[derive(Drop)]
struct Trial<'a, R> {
    threads: &'a R,
    rt: &'a HostRuntime,
    kind: Kind,
    row: Row<'a>,
    run: Run,
}

/// Which call doesn't end the run as it should, where the row says that each is to fail in turn.
pub fn wrong_call<R: Threads + Wait + Sync>(
    threads: &R,
    rt: &HostRuntime,
    kind: Kind,
    row: Row<'_>,
) -> io::Result<Option<String>> {
    let run = Run::of_row(rt.alloc(), kind, row)?;
    let trial = Trial {
        threads,
        rt,
        kind,
        row,
        run,
    };
    let wrong = trial.wrong();
    drop(trial);
    wrong
}

impl<R: Threads + Wait + Sync> Trial<'_, R> {
    /// The call of the shelf, or the write of the line, that doesn't end the run as it should.
    fn wrong(&self) -> io::Result<Option<String>> {
        if let Some(calls) = self.row.field("shelf")
            && let Some(call) = self.wrong_call(number_of(calls)? as usize)?
        {
            return Ok(Some(format!(in self.rt.alloc(); "call {call} of the shelf")?));
        }
        if let Some(bytes) = self.row.field("out")
            && let Some(write) = self.wrong_write(number_of(bytes)? as usize)?
        {
            return Ok(Some(format!(in self.rt.alloc(); "write {write} of the line")?));
        }
        Ok(None)
    }

    /// The status with which the run ends where these calls of the shelf fail, and the files that it
    /// leaves.
    fn end(&self, failing: Vec<u64>, out: &mut MemSink) -> io::Result<(u8, MemShelf)> {
        let mut shelf = shelf_of(self.rt, self.kind, self.row, failing)?;
        let alloc = self.rt.alloc();
        let status = self.run.status(self.threads, alloc, &mut shelf, out);
        Ok((status, shelf))
    }

    /// The first of so many calls of the shelf that doesn't end the run as it should, or that number
    /// where there are more calls. The last ones write the outputs.
    fn wrong_call(&self, calls: usize) -> io::Result<Option<usize>> {
        let reads = calls.saturating_sub(outputs_of(self.kind).len());
        for call in 0..calls {
            if !self.ends_at_call(call, call.saturating_sub(reads))? {
                return Ok(Some(call));
            }
        }
        Ok(self.fails_at(calls)?.then_some(calls))
    }

    /// Whether the run ends with status 4 where this call of the shelf fails: whether it is made.
    fn fails_at(&self, call: usize) -> io::Result<bool> {
        let mut out = MemSink::new(self.rt.alloc(), Vec::new(self.rt.alloc()), None);
        let (status, _shelf) = self.end([call as u64].to_vec(self.rt.alloc())?, &mut out)?;
        Ok(status == FAILED)
    }

    /// Whether the run ends with status 4 where this call of the shelf fails, with nothing printed,
    /// and with so many of the outputs written.
    fn ends_at_call(&self, call: usize, written: usize) -> io::Result<bool> {
        let mut out = MemSink::new(self.rt.alloc(), Vec::new(self.rt.alloc()), None);
        let failing = [call as u64].to_vec(self.rt.alloc())?;
        let (status, shelf) = self.end(failing, &mut out)?;
        let is_silent = out.written().is_empty();
        Ok(status == FAILED && is_silent && self.has_written(&shelf, written))
    }

    /// The first write of the line, of so many bytes each, that doesn't end the run as it should.
    fn wrong_write(&self, bytes: usize) -> io::Result<Option<usize>> {
        let bytes = NonZeroUsize::new(bytes).ok_or(ErrorKind::InvalidData)?;
        let mut out = MemSink::new(self.rt.alloc(), Vec::new(self.rt.alloc()), None);
        self.end(Vec::new(self.rt.alloc()), &mut out)?;
        let line = out.written();
        for write in 0..line.len() {
            let front = line
                .get(..bytes.get().saturating_mul(write))
                .unwrap_or(line);
            if front.len() == line.len() {
                return Ok(None);
            }
            if !self.ends_at_write(bytes, write, front)? {
                return Ok(Some(write));
            }
        }
        Ok(None)
    }

    /// Whether the run ends with status 4 where this write of the line fails, with this printed before
    /// it, and with all outputs written.
    fn ends_at_write(&self, bytes: NonZeroUsize, write: usize, front: &[u8]) -> io::Result<bool> {
        let failing = [write as u64].to_vec(self.rt.alloc())?;
        let mut out = MemSink::new(self.rt.alloc(), failing, Some(bytes));
        let (status, shelf) = self.end(Vec::new(self.rt.alloc()), &mut out)?;
        let is_front = out.written() == front;
        Ok(status == FAILED && is_front && self.has_written(&shelf, outputs_of(self.kind).len()))
    }

    /// Whether the first so many of the outputs are there, and no others.
    fn has_written(&self, shelf: &MemShelf, count: usize) -> bool {
        for (place, name) in outputs_of(self.kind).iter().enumerate() {
            if shelf.get(name).is_some() != (place < count) {
                return false;
            }
        }
        true
    }
}
