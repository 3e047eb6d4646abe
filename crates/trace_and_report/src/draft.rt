ghost use Rattle.std.specs.Prelude.{◌≡◌, [], List, IfOk};
ghost use Rattle.script_tree.specs.Programs.{Program};
ghost use Rattle.script_tree.specs.Requests.{IsRequestWithinLimits};
ghost use Rattle.script_tree.specs.declared.path.Path.{Path as Taken};
ghost use Rattle.script_tree.specs.declared.request.Response.{Response as Answered};
ghost use Rattle.script_fit.specs.FitsOperation.{FitsOperation};
ghost use Rattle.history.specs.Journals.{CanHappen};
ghost use Rattle.history.specs.Names.{Named, came, did, went, name};
ghost use Rattle.trace_and_report.specs.Draft.{IsOfNames, TakesIn, at_object};
ghost use Rattle.trace_and_report.specs.Grouped.{groups_in, HaveMembers};
ghost use Rattle.trace_and_report.specs.Written.{AreFiles};

use crate::counts::count;
use crate::grouped::{Grouped, add_member, no_groups};
use crate::logs::{Logs, add_entry, no_logs};
use crate::recorded::Recorded;
use crate::widths::Wide;
use crate::writing::write_report;
use history::Happening;
use period::report::LogEntry;
use script_tree::operation::{Choice, Object, Op};
use script_tree::path::Path;
use script_tree::request::Response;
use std::alloc::{AllocError, Global};
use trace_format::appending::{add_request, add_response, begin as begin_trace};
use trace_format::packed::PackedRequest;

/// For how many bytes of the trace, and for how many requests, there is room at once. Each thread that takes in what
/// happened lets lists grow, and keeps the piece of memory that was too small as its own: next to a piece of the
/// thread that had it, the two would share a line of a processor's memory with each step of their pages.
const FIRST_BYTES: usize = 65536;

const FIRST_REQUESTS: usize = 1024;

/// What is kept of a history to write its files, while one goes through it: the trace as its file
/// has it, and the parts of the report.
#[derive(Drop)]
pub(crate) struct Draft {
    alloc: Global,
    trace: Vec<u8>,
    /// The ids of the requests that arrived.
    arrived: Vec<u32>,
    /// How many operations each request did, by id.
    operations: Vec<Option<u32>>,
    logs: Logs,
    groups: Grouped<Path, u32>,
}

impl Draft {
    /// Before anything has happened.
    pub(crate) fn new(alloc: Global) -> Result<Draft, AllocError>
        ensures { IfOk result (IsOfNames []) }
    {
        let mut trace = begin_trace(alloc)?;
        trace.reserve(FIRST_BYTES)?;
        Ok(Draft {
            alloc,
            trace,
            arrived: Vec::with_capacity(alloc, FIRST_REQUESTS)?,
            operations: Vec::new(alloc),
            logs: no_logs(alloc),
            groups: no_groups(alloc),
        })
    }

    /// Takes in what happened to a request.
    pub(crate) fn take(&mut self, happening: Happening) -> Result<(), AllocError>
        requires { CanHappen happening }
        ensures { TakesIn (name happening) self.old self.new result }
    {
        match happening {
            Happening::Arrive { rid, request, .. } => self.arrive(rid, &request),
            Happening::Act {
                rid,
                number,
                op,
                choice,
                ..
            } => self.act(rid, number, op, choice),
            Happening::Depart {
                rid,
                response,
                path,
                ..
            } => self.depart(rid, &response, path),
        }
    }

    fn arrive(&mut self, rid: u32, request: &PackedRequest) -> Result<(), AllocError>
        requires { IsRequestWithinLimits request.now }
        ensures { TakesIn (came rid request.now) self.old self.new result }
    {
        rid.keep_widths()?;
        add_request(&mut self.trace, rid, request)?;
        self.arrived.push(rid)?;
        Ok(())
    }

    fn act(&mut self, rid: u32, number: u32, op: Op, choice: Choice) -> Result<(), AllocError>
        requires { (program : Program) × FitsOperation program op }
        ensures { TakesIn (did rid number op choice) self.old self.new result }
    {
        let Op { object, act } = op;
        let entry = LogEntry {
            rid,
            number,
            act,
            choice,
        };
        self.add(object, &entry)
    }

    /// Takes in an operation at an object.
    fn add(&mut self, object: Object, entry: &LogEntry) -> Result<(), AllocError>
        requires { (program : Program) × FitsOperation program (at_object object entry.now.act) }
        ensures { TakesIn
            (did entry.now.rid entry.now.number (at_object object entry.now.act) entry.now.choice)
            self.old self.new result }
    {
        entry.keep_widths()?;
        count(&mut self.operations, entry.rid)?;
        add_entry(self.alloc, &mut self.logs, object, entry)
    }

    fn depart(&mut self, rid: u32, response: &Response, path: Path) -> Result<(), AllocError>
        ensures { TakesIn (went rid response.now path) self.old self.new result }
    {
        rid.keep_widths()?;
        response.keep_widths()?;
        add_response(&mut self.trace, rid, response)?;
        add_member(self.alloc, &mut self.groups, path, rid)
    }

    /// The files of all that was taken in.
    pub(crate) fn finish(self) -> Result<Recorded, AllocError>
        requires { HaveMembers (groups_in self.groups) }
        ensures { (names : List Named) → IsOfNames names self → IfOk result (AreFiles names) }
    {
        let Draft {
            alloc,
            trace,
            arrived,
            operations,
            logs,
            groups,
        } = self;
        let requests = arrived.len();
        let paths = groups.len();
        let report = write_report(alloc, &arrived, &operations, logs, groups)?;
        Ok(Recorded {
            trace,
            report,
            requests,
            groups: paths,
        })
    }
}
