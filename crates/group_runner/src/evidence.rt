ghost use Rattle.std.specs.Prelude.{◌≡◌, ◌&&◌, IfOk};
ghost use Rattle.script_tree.specs.Alike.{same_act};
ghost use Rattle.script_tree.specs.Objects.{is_same};
ghost use Rattle.script_meaning.specs.Conduct.{Wants};
ghost use Rattle.versioned_store.specs.Logged.{FitLogs};
ghost use Rattle.log_checker.specs.OpMaps.{IsMapOf};
ghost use Rattle.audit_meaning.specs.Spots.{count_of};
ghost use Rattle.group_runner.specs.Told.{told_by, answer_to};

use log_checker::OpMap;
use object_set::ObjectSet;
use period::group::Group;
use period::report::{Log, LogEntry, Report};
use script_tree::operation::Op;
use script_tree::value::Value;
use std::alloc::{AllocError, Global};
use std::marker::Model;
use trace_index::IndexedTrace;
use versioned_store::VersionedStore;

/// What an auditor is told: a trace, what the objects held at its start, and a report, with where
/// each of its operations stands and what the objects held there.
#[derive(Drop)]
pub struct Evidence<'a> {
    trace: &'a IndexedTrace<'a>,
    start: &'a ObjectSet,
    report: &'a Report,
    map: &'a OpMap,
    store: VersionedStore<'a>,
}

impl<'a> Model for Evidence<'a> {
    ghost use Rattle.group_runner.specs.Told.{Told, coded_told};

    ghost Value = { Told };

    ghost coded = { coded_told };

    ghost use Rattle.group_runner.specs.EvidenceView.{told_in, IsGathered};

    ghost view = { told_in };

    ghost invariant = { IsGathered };
}

impl<'a> Evidence<'a> {
    /// The evidence of a trace, a start and a report whose operations stand where the map says.
    pub fn gather(
        alloc: Global,
        trace: &'a IndexedTrace<'a>,
        start: &'a ObjectSet,
        report: &'a Report,
        map: &'a OpMap,
    ) -> Result<Evidence<'a>, AllocError>
        requires mapped { IsMapOf report.now map.now }
        requires fit { FitLogs start.now report.now.logs }
        ensures { IfOk result (λ evidence.
            evidence ≡ told_by trace.now start.now report.now) }
    {
        let store = VersionedStore::build(alloc, start, report.logs.as_slice())?;
        Ok(Evidence {
            trace,
            start,
            report,
            map,
            store,
        })
    }

    pub fn trace(&self) -> &IndexedTrace<'a>
        ensures { result.now ≡ self.now.trace }
    {
        self.trace
    }

    pub fn groups(&self) -> &[Group]
        ensures { result.now ≡ self.now.report.groups }
    {
        self.report.groups.as_slice()
    }

    /// How many operations a request counts; 0 where it has no count.
    pub fn count(&self, rid: u32) -> u32
        ensures { result ≡ count_of self.now.report rid }
    {
        self.map.count(rid)
    }

    /// The answer to a request's operation of this number, where the report has it.
    pub fn answer(&self, rid: u32, number: u32, op: &Op) -> Result<Option<Value>, AllocError>
        ensures { IfOk result (λ answer. answer ≡ answer_to self.now rid number (Wants op.now)) }
    {
        let Some((log_number, position)) = self.map.find(rid, number) else {
            return Ok(None);
        };
        let log = &self.report.logs.as_slice()[log_number as usize];
        let entry = &log.entries.as_slice()[position as usize];
        if !is_entry_of(op, log, entry) {
            return Ok(None);
        }
        Ok(Some(self.store.answer_at(log_number, position)?))
    }
}

/// Whether an entry of a log is this operation's.
fn is_entry_of(op: &Op, log: &Log, entry: &LogEntry) -> bool
    ensures { result ≡ (is_same log.now.object op.now.object && same_act entry.now.act op.now.act) }
{
    log.object == op.object && entry.act.is_same(&op.act)
}
