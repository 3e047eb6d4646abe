ghost use Rattle.std.specs.Prelude.{◌≡◌, ◌<◌, ◌++◌, ◌^◌, [], length, map, IfOk, OnOk};
ghost use Rattle.wire.specs.Files.{LeavesRoom};
ghost use Rattle.report_format.specs.Parts.{AllAllowed};
ghost use Rattle.report_format.specs.Reports.{report_format, records_of, IsSpellable, EncodesReport, IsReadAgain};
ghost use Rattle.report_format.specs.Reports.{count_field, log_field, group_field};
ghost use Rattle.report_format.specs.declared.format.ReportRecord.TheVariants as it;

use crate::fields::FieldKind;
use crate::format::{COUNT_TAG, GROUP_TAG, LOG_TAG, ReportRecords};
use crate::parts::write_one;
use crate::records::{CountField, GroupField, LogField};
use basis::{Items, OrMemory};
use period::group::Group;
use period::report::{Count, Log, Report};
use std::alloc::{AllocError, Global};
use std::marker::{Model, PhantomData};
use wire::fault::PastLimit;
use wire::file::write_file_within;
use wire::limits::MOST_FILE_BYTES;
use wire::record::{RecordFormat, RecordWriter};

/// A record that is lent, and may be spelled. Contracts see the record.
#[derive(Drop)]
pub(crate) struct LentRecord<'a> {
    part: Part<'a>,
}

#[derive(Drop)]
enum Part<'a> {
    Count(&'a Count),
    Log(&'a Log),
    Group(&'a Group),
}

impl<'a> Model for LentRecord<'a> {
    ghost use Rattle.report_format.specs.declared.format.ReportRecord.{ReportRecord};
    ghost use Rattle.report_format.specs.contracts.format.ReportRecord as row;
    ghost use Rattle.report_format.specs.LentView.{record_in, MayBeSpelled};

    ghost Value = { ReportRecord };

    ghost coded = { row.the_row.coded };

    ghost view = { λ a. record_in a.part };

    ghost invariant = { λ a. MayBeSpelled a.part };
}

impl<'a> LentRecord<'a> {
    pub(crate) fn count(count: &'a Count) -> LentRecord<'a>
        requires { count_field.allows count.now }
        ensures { result ≡ it.Count count.now }
    {
        LentRecord {
            part: Part::Count(count),
        }
    }

    fn log(log: &'a Log) -> LentRecord<'a>
        requires { log_field.allows log.now }
        ensures { result ≡ it.Log log.now }
    {
        LentRecord {
            part: Part::Log(log),
        }
    }

    pub(crate) fn group(group: &'a Group) -> LentRecord<'a>
        requires { group_field.allows group.now }
        ensures { result ≡ it.Group group.now }
    {
        LentRecord {
            part: Part::Group(group),
        }
    }
}

/// The format of reports whose records are lent.
pub(crate) struct LentRecords<'a> {
    records: PhantomData<LentRecord<'a>>,
}

impl<'a> RecordFormat for LentRecords<'a> {
    type Item = LentRecord<'a>;

    ghost format = { report_format };

    fn magic() -> &'static [u8]
        ensures { result.now ≡ report_format.magic }
    {
        ReportRecords::magic()
    }
}

impl<'a> RecordWriter for LentRecords<'a> {
    fn room_behind(room: usize, lent: &LentRecord<'a>) -> Option<usize>
        ensures { LeavesRoom room (report_format.payload lent.now) result }
    {
        let left = room.checked_sub(1)?;
        match &lent.part {
            Part::Count(count) => CountField::room_behind(left, count),
            Part::Log(log) => LogField::room_behind(left, log),
            Part::Group(group) => GroupField::room_behind(left, group),
        }
    }

    fn write(out: &mut Vec<u8>, lent: &LentRecord<'a>) -> Result<(), AllocError>
        requires { length (report_format.payload lent.now) < 2 ^ 32 }
        ensures { OnOk result (out.new.items ≡ out.old.items ++ report_format.payload lent.now) }
    {
        match &lent.part {
            Part::Count(count) => write_one::<CountField>(out, COUNT_TAG, count),
            Part::Log(log) => write_one::<LogField>(out, LOG_TAG, log),
            Part::Group(group) => write_one::<GroupField>(out, GROUP_TAG, group),
        }
    }
}

/// The records of a report, in their order.
fn lent_records(alloc: Global, report: &Report) -> Result<Items<LentRecord<'_>>, AllocError>
    requires { IsSpellable report.now }
    ensures { IfOk result (λ records. records ≡ records_of report.now) }
{
    let mut records = Vec::new(alloc);
    match lend_all(&mut records, report) {
        Ok(()) => Ok(Items::from_vec(records)),
        Err(error) => {
            drop(records);
            Err(error)
        }
    }
}

/// Adds all records of a report, where there is none so far.
fn lend_all<'a>(records: &mut Vec<LentRecord<'a>>, report: &'a Report) -> Result<(), AllocError>
    requires empty { records.old.items ≡ [] }
    requires spellable { IsSpellable report.now }
    ensures { OnOk result (records.new.items ≡ records_of report.now) }
{
    lend_counts(records, report.counts.as_slice())?;
    lend_logs(records, report.logs.as_slice())?;
    lend_groups(records, report.groups.as_slice())
}

/// Adds the counts of a report.
fn lend_counts<'a>(records: &mut Vec<LentRecord<'a>>, counts: &'a [Count]) -> Result<(), AllocError>
    requires { AllAllowed count_field counts.now }
    ensures { OnOk result (records.new.items ≡ records.old.items ++ map it.Count counts.now) }
{
    for count in counts {
        records.push(LentRecord::count(count))?;
    }
    Ok(())
}

/// Adds its logs.
fn lend_logs<'a>(records: &mut Vec<LentRecord<'a>>, logs: &'a [Log]) -> Result<(), AllocError>
    requires { AllAllowed log_field logs.now }
    ensures { OnOk result (records.new.items ≡ records.old.items ++ map it.Log logs.now) }
{
    for log in logs {
        records.push(LentRecord::log(log))?;
    }
    Ok(())
}

/// Adds its groups.
fn lend_groups<'a>(records: &mut Vec<LentRecord<'a>>, groups: &'a [Group]) -> Result<(), AllocError>
    requires { AllAllowed group_field groups.now }
    ensures { OnOk result (records.new.items ≡ records.old.items ++ map it.Group groups.now) }
{
    for group in groups {
        records.push(LentRecord::group(group))?;
    }
    Ok(())
}

/// The file that spells the report, or the first record that would end past the limit of a file.
pub fn encode(alloc: Global, report: &Report) -> Result<Vec<u8>, OrMemory<PastLimit>>
    requires { IsSpellable report.now }
    ensures { EncodesReport report.now result }
{
    let records = lent_records(alloc, report)?;
    let file = write_file_within::<LentRecords>(alloc, MOST_FILE_BYTES, &records);
    drop(records);
    file
}

/// What is encoded is decoded again.
pub fn encoded_reports_are_read()
    ensures { IsReadAgain }
{}
