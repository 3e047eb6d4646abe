ghost use Rattle.std.specs.Prelude.{◌≡◌, [], List, map, IfOk};
ghost use Rattle.history.specs.Names.{Named, came, did, went};
ghost use Rattle.history.specs.ReportOf.{report_in, report_of};
ghost use Rattle.trace_and_report.specs.Draft.{count_at};
ghost use Rattle.trace_and_report.specs.Grouped.{groups_in, HaveMembers};
ghost use Rattle.whole_history.specs.Accepted.{IsAcceptedReport};
ghost use Rattle.whole_history.specs.Drafts.{IsReportDraft, log_of, members_of};
ghost use Rattle.whole_history.specs.Walks.{TakesIn};

use crate::copies::Copied;
use crate::walk::{Draft, walk};
use audit_completeness::law::recorded_is_accepted;
use basis::Items;
use history::{Happening, History};
use period::group::{Group, Groups};
use period::report::{Count, Counts, Log, LogEntry, Logs, Report};
use script_tree::operation::{Choice, Object, Op};
use script_tree::path::Path;
use script_tree::request::Response;
use std::alloc::{AllocError, Global};
use trace_and_report::counts::{count, counted};
use trace_and_report::grouped::{Grouped, add_member, no_groups};
use trace_format::packed::PackedRequest;

/// The parts of a report, while it is made.
#[derive(Drop)]
pub(crate) struct ReportDraft {
    alloc: Global,
    /// The ids of the requests that arrived.
    arrived: Vec<u32>,
    /// How many operations each request did, by id.
    operations: Vec<Option<u32>>,
    logs: Grouped<Object, LogEntry>,
    groups: Grouped<Path, u32>,
}

impl Draft for ReportDraft {
    ghost is_of = { IsReportDraft };

    fn take(&mut self, happening: &Happening) -> Result<(), AllocError> {
        match happening {
            Happening::Arrive { rid, request, .. } => self.arrive(*rid, request),
            Happening::Act {
                rid,
                number,
                op,
                choice,
                ..
            } => self.act(*rid, *number, op, *choice),
            Happening::Depart {
                rid,
                response,
                path,
                ..
            } => self.depart(*rid, response, path),
        }
    }
}

impl ReportDraft {
    /// Of nothing.
    fn new(alloc: Global) -> ReportDraft
        ensures { IsReportDraft [] result }
    {
        ReportDraft {
            alloc,
            arrived: Vec::new(alloc),
            operations: Vec::new(alloc),
            logs: no_groups(alloc),
            groups: no_groups(alloc),
        }
    }

    fn arrive(&mut self, rid: u32, _request: &PackedRequest) -> Result<(), AllocError>
        ensures { TakesIn IsReportDraft (came rid _request.now) self.old self.new result }
    {
        self.arrived.push(rid)?;
        Ok(())
    }

    fn act(&mut self, rid: u32, number: u32, op: &Op, choice: Choice) -> Result<(), AllocError>
        ensures { TakesIn IsReportDraft (did rid number op.now choice) self.old self.new result }
    {
        let object = op.object.copied(self.alloc)?;
        let act = op.act.copied(self.alloc)?;
        let entry = LogEntry {
            rid,
            number,
            act,
            choice,
        };
        count(&mut self.operations, rid)?;
        add_member(self.alloc, &mut self.logs, object, entry)
    }

    fn depart(&mut self, rid: u32, _response: &Response, path: &Path) -> Result<(), AllocError>
        ensures { TakesIn IsReportDraft (went rid _response.now path.now) self.old self.new result }
    {
        let path = path.copied(self.alloc)?;
        add_member(self.alloc, &mut self.groups, path, rid)
    }

    /// The report of all that was taken in.
    fn finish(self) -> Result<Report, AllocError>
        requires { HaveMembers (groups_in self.groups) }
        ensures { (names : List Named) → IsReportDraft names self
            → IfOk result (λ report. report ≡ report_in names) }
    {
        let ReportDraft {
            alloc,
            arrived,
            operations,
            logs,
            groups,
        } = self;
        let counts = counts_from(alloc, &arrived, &operations)?;
        let logs = logs_from(alloc, logs)?;
        let groups = groups_from(alloc, groups)?;
        Ok(Report {
            counts,
            logs,
            groups,
        })
    }
}

/// How many operations each request did that arrived.
fn counts_from(
    alloc: Global,
    arrived: &[u32],
    operations: &[Option<u32>],
) -> Result<Counts, AllocError>
    ensures { IfOk result (λ counts. counts ≡ map (count_at operations.now) arrived.now) }
{
    let mut counts = Vec::with_capacity(alloc, arrived.len())?;
    for rid in arrived {
        counts.push(Count {
            rid: *rid,
            operations: counted(operations, *rid),
        })?;
    }
    Ok(Items::from_vec(counts))
}

/// The logs, in the order of their objects.
fn logs_from(alloc: Global, logs: Grouped<Object, LogEntry>) -> Result<Logs, AllocError>
    ensures { IfOk result (λ made. made ≡ map log_of (groups_in logs)) }
{
    let mut made = Vec::with_capacity(alloc, logs.len())?;
    for (object, entries) in logs {
        made.push(Log {
            object,
            entries: Items::from_vec(entries),
        })?;
    }
    Ok(Items::from_vec(made))
}

/// The groups of requests that took one path, in the order of their paths.
fn groups_from(alloc: Global, groups: Grouped<Path, u32>) -> Result<Groups, AllocError>
    requires { HaveMembers (groups_in groups) }
    ensures { IfOk result (λ made. made ≡ map members_of (groups_in groups)) }
{
    let mut made = Vec::with_capacity(alloc, groups.len())?;
    for (_path, rids) in groups {
        let Some(group) = Group::new(rids) else {
            unreachable!()
        };
        made.push(group)?;
    }
    Ok(Items::from_vec(made))
}

/// The report of a history. Ids, counts and lengths that 32 bits don't hold are answered as want of
/// memory.
pub fn report_of(alloc: Global, history: &History) -> Result<Report, AllocError>
    ensures report { IfOk result (λ report. report ≡ report_of history.now) }
    ensures accepted { IfOk result (IsAcceptedReport history.now) }
{
    recorded_is_accepted();
    let draft = walk(history, ReportDraft::new(alloc))?;
    draft.finish()
}
