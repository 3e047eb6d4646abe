ghost use Rattle.std.specs.Prelude.{◌≡◌, [], IfOk, OnOk};
ghost use Rattle.wire.specs.Files.{MayFollow, IsExact};
ghost use Rattle.report_format.specs.RecordKinds.{Adds};
ghost use Rattle.report_format.specs.Reports.{report_format, rank, last_rank, records_of, DecodesReport};

use crate::format::{ReportRecord, ReportRecords};
use crate::records::read_record;
use basis::{Items, OrMemory};
use period::report::Report;
use std::alloc::{AllocError, Global};
use wire::fault::Unreadable;
use wire::file::read_file;
use wire::record::RecordReader;

/// Counts come first, then logs, then groups.
fn rank_of(read: &ReportRecord) -> u8
    ensures { result ≡ rank read.now }
{
    match read {
        ReportRecord::Count(_) => 1,
        ReportRecord::Log(_) => 2,
        ReportRecord::Group(_) => 3,
    }
}

impl RecordReader for ReportRecords {
    ghost HasRead = { λ reader before. reader.rank ≡ last_rank before };

    fn new() -> ReportRecords {
        ReportRecords { rank: 1 }
    }

    fn read(
        &mut self,
        alloc: Global,
        payload: &[u8],
    ) -> Result<ReportRecord, OrMemory<Unreadable>> {
        let (record, next) = read_record(alloc, payload)?;
        if next != payload.len() {
            drop(record);
            return Err(OrMemory::Other(Unreadable { at: next }));
        }
        let rank = rank_of(&record);
        if rank < self.rank {
            drop(record);
            return Err(OrMemory::Other(Unreadable { at: 0 }));
        }
        self.rank = rank;
        Ok(record)
    }
}

/// Puts a record behind those of its kind.
fn add(report: &mut Report, read: ReportRecord) -> Result<(), AllocError>
    ensures { OnOk result (Adds read report.old report.new) }
{
    match read {
        ReportRecord::Count(count) => report.counts.push(count),
        ReportRecord::Log(log) => report.logs.push(log),
        ReportRecord::Group(group) => report.groups.push(group),
    }
}

/// The report whose records these are, which stand in their order.
fn report_from(alloc: Global, records: Items<ReportRecord>) -> Result<Report, AllocError>
    requires { MayFollow report_format [] records }
    ensures { IfOk result (λ report. records_of report ≡ records) }
{
    let mut report = Report {
        counts: Items::new(alloc),
        logs: Items::new(alloc),
        groups: Items::new(alloc),
    };
    let mut left = records.into_vec().into_iter();
    while let Some(read) = left.next() {
        if let Err(error) = add(&mut report, read) {
            drop(left);
            drop(report);
            return Err(error);
        }
    }
    drop(left);
    Ok(report)
}

/// The report that the whole file spells.
pub fn decode(alloc: Global, bytes: &[u8]) -> Result<Report, OrMemory<Unreadable>>
    ensures { DecodesReport bytes.now result }
{
    let records = read_file::<ReportRecords>(alloc, bytes)?;
    Ok(report_from(alloc, records)?)
}

/// A file is read in one way: as the records of one report at most, or as unreadable at one place;
/// and what is encoded is decoded again.
pub fn reading_is_exact()
    ensures { IsExact report_format }
{}
