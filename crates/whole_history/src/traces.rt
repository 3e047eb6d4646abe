ghost use Rattle.std.specs.Prelude.{◌≡◌, ◌≤◌, [], length, IfOk, OnOk};
ghost use Rattle.script_tree.specs.declared.limits.TheConstants.{MOST_REQUESTS};
ghost use Rattle.history.specs.Arrivals.{arrivals};
ghost use Rattle.history.specs.Names.{came, went};
ghost use Rattle.history.specs.TraceOf.{trace_of};
ghost use Rattle.whole_history.specs.Accepted.{IsAcceptedTrace};
ghost use Rattle.whole_history.specs.Drafts.{IsTraceDraft};
ghost use Rattle.whole_history.specs.Walks.{TakesIn};

use crate::walk::{Draft, walk};
use audit_completeness::law::recorded_is_accepted;
use basis::OrMemory;
use history::{Happening, History};
use script_tree::path::Path;
use script_tree::request::Response;
use std::alloc::{AllocError, Global};
use trace_and_report::widths::Wide;
use trace_format::appending::{add_request, add_response, begin};
use trace_format::decoding::reading_is_exact;
use trace_format::packed::PackedRequest;
use trace_format::trace_file::TraceFile;
use wire::limits::MOST_FILE_BYTES;

/// The file of a trace, while it is made.
#[derive(Drop)]
pub(crate) struct TraceDraft {
    bytes: Vec<u8>,
}

impl Draft for TraceDraft {
    ghost is_of = { IsTraceDraft };

    fn take(&mut self, happening: &Happening) -> Result<(), AllocError> {
        match happening {
            Happening::Arrive { rid, request, .. } => self.arrive(*rid, request),
            Happening::Act { .. } => Ok(()),
            Happening::Depart {
                rid,
                response,
                path,
                ..
            } => self.depart(*rid, response, path),
        }
    }
}

impl TraceDraft {
    /// Without events.
    fn new(alloc: Global) -> Result<TraceDraft, AllocError>
        ensures { IfOk result (IsTraceDraft []) }
    {
        Ok(TraceDraft {
            bytes: begin(alloc)?,
        })
    }

    fn arrive(&mut self, rid: u32, request: &PackedRequest) -> Result<(), AllocError>
        ensures { TakesIn IsTraceDraft (came rid request.now) self.old self.new result }
    {
        rid.keep_widths()?;
        request.keeps_limits();
        add_request(&mut self.bytes, rid, request)
    }

    fn depart(&mut self, rid: u32, response: &Response, _path: &Path) -> Result<(), AllocError>
        ensures { TakesIn IsTraceDraft (went rid response.now _path.now) self.old self.new result }
    {
        rid.keep_widths()?;
        response.keep_widths()?;
        add_response(&mut self.bytes, rid, response)
    }
}

/// The trace of a history. One whose file would be longer than a file may be, and ids, counts and
/// lengths that 32 bits don't hold are answered as want of memory.
pub fn trace_of(alloc: Global, history: &History) -> Result<TraceFile, AllocError>
    requires { length (arrivals history.now) ≤ MOST_REQUESTS }
    ensures trace { IfOk result (λ trace. trace ≡ trace_of history.now) }
    ensures accepted { IfOk result (IsAcceptedTrace history.now) }
{
    recorded_is_accepted();
    reading_is_exact();
    let draft = walk(history, TraceDraft::new(alloc)?)?;
    let TraceDraft { bytes } = draft;
    if bytes.len() > MOST_FILE_BYTES {
        return Err(AllocError);
    }
    match TraceFile::read(alloc, bytes) {
        Ok(trace) => Ok(trace),
        Err(OrMemory::Memory) => Err(AllocError),
        Err(OrMemory::Other(_)) => unreachable!(),
    }
}
