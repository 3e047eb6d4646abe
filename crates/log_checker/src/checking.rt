ghost use Rattle.std.specs.Prelude.{◌≡◌};
ghost use Rattle.script_tree.specs.Programs.{Program as AnyProgram};
ghost use Rattle.object_set.specs.ObjectSets.{IsSetOf, objects_of};
ghost use Rattle.period.specs.declared.report.Report.{Report as AnyReport};
ghost use Rattle.audit_meaning.specs.LogFaults.{operation_without_entry, log_fault};
ghost use Rattle.log_checker.specs.Faults.{IsFaultOr, IsFaultIfAny};
ghost use Rattle.log_checker.specs.OpMaps.{IsMapOf};

use crate::counting::{OperationCounts, check_counted};
use crate::entries::EntryChecker;
use crate::log_objects::check_objects;
use crate::op_map::OpMap;
use audit_meaning::reason::Reason;
use basis::OrMemory;
use object_set::ObjectSet;
use period::report::Report;
use std::alloc::Global;
use trace_format::trace_file::EventHead;
use trace_index::IndexedTrace;

/// Each operation that is counted has an entry.
fn check_operations(trace: &IndexedTrace<'_>, map: &OpMap) -> Result<(), OrMemory<Reason>>
    ensures { (report : AnyReport) → IsMapOf report map.now
        → IsFaultIfAny (operation_without_entry trace.now report) result }
{
    for place in 0..trace.len() {
        if let EventHead::Asks(rid) = trace.head(place) {
            if let Some(operation) = map.first_missing(rid) {
                return Err(OrMemory::Other(Reason::OperationWithoutEntry { rid, operation }));
            }
        }
    }
    Ok(())
}

/// The first that is wrong with the counts and the logs of a report; else where each operation
/// stands.
pub fn check_logs(
    alloc: Global,
    start: &ObjectSet,
    trace: &IndexedTrace<'_>,
    report: &Report,
) -> Result<OpMap, OrMemory<Reason>>
    ensures { (program : AnyProgram) → IsSetOf program start.now
        → IsFaultOr (log_fault program (objects_of start.now) trace.now report.now)
        (IsMapOf report.now) result }
{
    check_objects(alloc, report)?;
    let counts = OperationCounts::read(alloc, report)?;
    check_counted(trace, report)?;
    counts.check_requests(trace)?;
    let map = EntryChecker { start, trace }.read_logs(alloc, counts, report)?;
    check_operations(trace, &map)?;
    Ok(map)
}
