ghost use Rattle.std.specs.Prelude.{◌≡◌, List, None, IfOk};
ghost use Rattle.std.specs.Option.{option_copied};
ghost use Rattle.script_tree.specs.Programs.{Program as AnyProgram};
ghost use Rattle.object_set.specs.ObjectSets.{IsSetOf, objects_of};
ghost use Rattle.period.specs.declared.report.LogEntry.{LogEntry as AnyEntry};
ghost use Rattle.period.specs.declared.report.Report.{Report as AnyReport};
ghost use Rattle.audit_meaning.specs.LogFaults.{is_foreign, is_out_of_order, is_uncounted, faulty_entry};
ghost use Rattle.audit_meaning.specs.Spots.{spots};
ghost use Rattle.log_checker.specs.Counting.{IsCounted};
ghost use Rattle.log_checker.specs.Entries.{next_reading, spot_at, FindsFault, Knows, ReadsLog};
ghost use Rattle.log_checker.specs.Faults.{IsFaultOr};
ghost use Rattle.log_checker.specs.OpMaps.{PutsPlace};

use crate::choices::choice_is_of;
use crate::counting::OperationCounts;
use crate::entry_fault::EntryFault;
use crate::op_map::OpMap;
use crate::plausible::is_plausible;
use audit_meaning::reason::Reason;
use basis::OrMemory;
use object_set::ObjectSet;
use period::report::{Log, LogEntry, Report};
use script_tree::operation::{Choice, Object};
use std::alloc::{AllocError, Global};
use trace_index::{IndexedTrace, narrow};

/// Whether the entry before is of the same request, and its number isn't below.
fn is_out_of_order(before: Option<&LogEntry>, entry: &LogEntry) -> bool
    ensures { result ≡ is_out_of_order (option_copied before.entry) entry.now }
{
    match before {
        Some(before) => before.rid == entry.rid && before.number >= entry.number,
        None => false,
    }
}

/// Whether what it does isn't the program's, or its choice isn't of the kind that this takes.
fn is_foreign(start: &ObjectSet, object: &Object, entry: &LogEntry) -> bool
    ensures { (program : AnyProgram) (past : List AnyEntry) → IsSetOf program start.now
        → result ≡ is_foreign program (spot_at object.now past entry.now) }
{
    !start.is_of_program(object, &entry.act) || !choice_is_of(&entry.act, entry.choice)
}

fn is_uncounted(map: &OpMap, entry: &LogEntry) -> bool
    ensures { (report : AnyReport) → IsCounted report map.now.counts
        → result ≡ is_uncounted report entry.now }
{
    entry.number == 0 || map.count(entry.rid) < entry.number
}

/// What the clock read last, after this choice.
fn next_reading(last: i64, choice: Choice) -> i64
    ensures { result ≡ next_reading last choice }
{
    match choice {
        Choice::Nothing => last,
        Choice::Number(number) => number,
    }
}

/// What entries are checked against.
#[derive(Clone, Copy)]
pub(crate) struct EntryChecker<'a, 't> {
    pub start: &'a ObjectSet,
    pub trace: &'a IndexedTrace<'t>,
}

impl EntryChecker<'_, '_> {
    /// The first that is wrong with an entry; where nothing is, its place is in the map. The clock
    /// read `time` last.
    fn first_wrong(
        &self,
        map: &mut OpMap,
        object: &Object,
        before: Option<&LogEntry>,
        entry: &LogEntry,
        time: i64,
        place: (u32, u32),
    ) -> Result<Option<EntryFault>, AllocError>
        ensures fault { FindsFault self.now.start.now self.now.trace.now map.old object.now
            (option_copied before.entry) entry.now time result }
        ensures puts { IfOk result (λ fault. fault ≡ None
            → PutsPlace entry.now.rid entry.now.number place map.old map.new) }
        ensures counts { map.new.counts ≡ map.old.counts }
    {
        if is_foreign(self.start, object, entry) {
            return Ok(Some(EntryFault::Foreign));
        }
        if self.trace.place(entry.rid).is_none() {
            return Ok(Some(EntryFault::OfNoRequest));
        }
        if is_uncounted(map, entry) {
            return Ok(Some(EntryFault::Uncounted));
        }
        if !map.put(entry.rid, entry.number, place)? {
            return Ok(Some(EntryFault::Second));
        }
        if is_out_of_order(before, entry) {
            return Ok(Some(EntryFault::OutOfOrder));
        }
        if !is_plausible(&entry.act, entry.choice, time) {
            return Ok(Some(EntryFault::Implausible));
        }
        Ok(None)
    }

    /// Checks the entries of a log, and puts their places into the map.
    fn read_log(&self, map: &mut OpMap, number: usize, log: &Log) -> Result<(), OrMemory<Reason>>
        ensures { ReadsLog self.now.start.now self.now.trace.now log.now number map.old map.new
            result }
    {
        let log_number = narrow(number)?;
        let entries = log.entries.as_slice();
        let mut time = self.start.clock();
        let mut before = None;
        for (index, entry) in entries.iter().enumerate() {
            let position = narrow(index)?;
            let place = (log_number, position);
            let wrong = self.first_wrong(map, &log.object, before, entry, time, place)?;
            if let Some(fault) = wrong {
                return Err(OrMemory::Other(fault.at(&log.object, position)?));
            }
            time = next_reading(time, entry.choice);
            before = Some(entry);
        }
        Ok(())
    }

    /// Checks the entries of a report, and gives their places.
    pub(crate) fn read_logs(
        &self,
        alloc: Global,
        counts: OperationCounts,
        report: &Report,
    ) -> Result<OpMap, OrMemory<Reason>>
        requires { IsCounted report.now counts }
        ensures { (program : AnyProgram) → IsSetOf program self.now.start.now → IsFaultOr
            (faulty_entry program (objects_of self.now.start.now) self.now.trace.now report.now)
            (Knows report.now (spots report.now.logs)) result }
    {
        let mut map = OpMap::new(alloc, counts, report.counts.len())?;
        for (number, log) in report.logs.as_slice().iter().enumerate() {
            self.read_log(&mut map, number, log)?;
        }
        Ok(map)
    }
}
