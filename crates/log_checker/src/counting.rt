ghost use Rattle.std.specs.Prelude.{◌≡◌};
ghost use Rattle.period.specs.declared.report.Report.{Report as AnyReport};
ghost use Rattle.audit_meaning.specs.LogFaults.{second_count, count_of_no_request, request_without_count};
ghost use Rattle.log_checker.specs.Counting.{IsCounted, operations_of};
ghost use Rattle.log_checker.specs.Faults.{IsFaultOr, IsFaultIfAny};

use audit_meaning::reason::Reason;
use basis::OrMemory;
use period::report::Report;
use request_tables::IdTable;
use std::alloc::Global;
use trace_format::trace_file::EventHead;
use trace_index::IndexedTrace;

/// How many operations each request issued, by its count.
#[derive(Drop)]
pub struct OperationCounts {
    operations: IdTable,
}

impl OperationCounts {
    /// The counts of a report, no two of one request.
    pub(crate) fn read(alloc: Global, report: &Report) -> Result<OperationCounts, OrMemory<Reason>>
        ensures { IsFaultOr (second_count report.now) (IsCounted report.now) result }
    {
        let mut operations = IdTable::new(alloc, report.counts.len())?;
        for count in report.counts.as_slice() {
            let rid = count.rid;
            let earlier = operations.insert(rid, count.operations)?;
            if earlier.is_some() {
                return Err(OrMemory::Other(Reason::SecondCount { rid }));
            }
        }
        Ok(OperationCounts { operations })
    }

    pub(crate) fn of(&self, rid: u32) -> Option<u32>
        ensures { result ≡ operations_of self.now rid }
    {
        self.operations.get(rid)
    }

    /// Each request has a count.
    pub(crate) fn check_requests(&self, trace: &IndexedTrace<'_>) -> Result<(), OrMemory<Reason>>
        ensures { (report : AnyReport) → IsCounted report self.now
            → IsFaultIfAny (request_without_count trace.now report) result }
    {
        for place in 0..trace.len() {
            if let EventHead::Asks(rid) = trace.head(place) {
                if self.of(rid).is_none() {
                    return Err(OrMemory::Other(Reason::RequestWithoutCount { rid }));
                }
            }
        }
        Ok(())
    }
}

/// Each count is of a request.
pub(crate) fn check_counted(
    trace: &IndexedTrace<'_>,
    report: &Report,
) -> Result<(), OrMemory<Reason>>
    ensures { IsFaultIfAny (count_of_no_request trace.now report.now) result }
{
    for count in report.counts.as_slice() {
        let rid = count.rid;
        if trace.place(rid).is_none() {
            return Err(OrMemory::Other(Reason::CountOfNoRequest { rid }));
        }
    }
    Ok(())
}
