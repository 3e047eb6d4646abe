use period::group::Group;
use period::report::{Count, Log};
use wire::record::RecordFormat;

/// The first byte of the record of a count.
pub(crate) const COUNT_TAG: u8 = 1;

/// The first byte of the record of a log.
pub(crate) const LOG_TAG: u8 = 2;

/// The first byte of the record of a group.
pub(crate) const GROUP_TAG: u8 = 3;

/// A record of a report's file.
#[derive(Drop)]
pub enum ReportRecord {
    Count(Count),
    Log(Log),
    Group(Group),
}

/// The format of reports, with the rank of the record that was read last.
#[derive(Drop)]
pub(crate) struct ReportRecords {
    pub(crate) rank: u8,
}

impl RecordFormat for ReportRecords {
    type Item = ReportRecord;

    ghost use Rattle.report_format.specs.Reports.{report_format};

    ghost format = { report_format };

    fn magic() -> &'static [u8] {
        b"SSCORPT1"
    }
}
