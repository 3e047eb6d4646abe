//! The records of a report, one behind the other.
ghost use Rattle.std.specs.Prelude.{◌≡◌, List, [], map, IfOk, OnOk};
ghost use Rattle.wire.specs.Files.{file_spelling};
ghost use Rattle.report_format.specs.Reports.{report_format};
ghost use Rattle.script_tree.specs.declared.operation.Object.{Object as Used};
ghost use Rattle.period.specs.declared.report.LogEntry.{LogEntry as Entry};
ghost use Rattle.trace_and_report.specs.Draft.{spelled_log};
ghost use Rattle.trace_and_report.specs.Grouped.{entries_in, groups_in, HaveMembers};
ghost use Rattle.trace_and_report.specs.Widths.{Each};
ghost use Rattle.trace_and_report.specs.Written.{AreAdded, AreBehind, AreWritten};
ghost use Rattle.trace_and_report.specs.Written.{count_records, group_record, log_record};
ghost use Rattle.trace_and_report.specs.Written.{HasSpellings, IsLogWritten};

use crate::counts::counted;
use crate::grouped::Grouped;
use crate::logs::Logs;
use crate::widths::Wide;
use period::group::Group;
use period::report::Count;
use report_format::appending::{SpelledEntries, add_count, add_group, add_log, begin};
use script_tree::operation::Object;
use script_tree::path::Path;
use std::alloc::{AllocError, Global};

/// Writes a report: the counts, the logs and the groups.
pub(crate) fn write_report(
    alloc: Global,
    arrived: &[u32],
    operations: &[Option<u32>],
    logs: Logs,
    groups: Grouped<Path, u32>,
) -> Result<Vec<u8>, AllocError>
    requires { HaveMembers (groups_in groups) }
    ensures { (gs : List (Used × List Entry)) → entries_in logs ≡ map spelled_log gs
        → Each HasSpellings gs → let counts = count_records operations.now arrived.now in
        let members = map group_record (groups_in groups) in
        IfOk result (λ report. AreWritten counts (map log_record gs) members report.items) }
{
    let mut report = begin_counts(alloc, arrived, operations)?;
    write_rest(&mut report, logs, groups)?;
    Ok(report)
}

/// Begins it with the counts.
fn begin_counts(
    alloc: Global,
    arrived: &[u32],
    operations: &[Option<u32>],
) -> Result<Vec<u8>, AllocError>
    ensures { let records = count_records operations.now arrived.now in
        IfOk result (λ out. AreAdded records (file_spelling report_format []) out.items) }
{
    let mut report = begin(alloc)?;
    write_counts(&mut report, arrived, operations)?;
    Ok(report)
}

/// Writes the logs and the groups.
fn write_rest(out: &mut Vec<u8>, logs: Logs, groups: Grouped<Path, u32>) -> Result<(), AllocError>
    requires { HaveMembers (groups_in groups) }
    ensures { (gs : List (Used × List Entry)) → entries_in logs ≡ map spelled_log gs
        → Each HasSpellings gs → let members = map group_record (groups_in groups) in
        OnOk result (AreBehind (map log_record gs) members out.old.items out.new.items) }
{
    write_logs(out, logs)?;
    write_groups(out, groups)
}

/// Writes how many operations each request did that arrived.
fn write_counts(
    out: &mut Vec<u8>,
    arrived: &[u32],
    operations: &[Option<u32>],
) -> Result<(), AllocError>
    ensures { let records = count_records operations.now arrived.now in
        OnOk result (AreAdded records out.old.items out.new.items) }
{
    for rid in arrived {
        let count = Count {
            rid: *rid,
            operations: counted(operations, *rid),
        };
        count.keep_widths()?;
        add_count(out, count)?;
    }
    Ok(())
}

/// Writes the logs, and drops each of them then.
fn write_logs(out: &mut Vec<u8>, logs: Logs) -> Result<(), AllocError>
    ensures { (gs : List (Used × List Entry)) → entries_in logs ≡ map spelled_log gs
        → Each HasSpellings gs
        → OnOk result (AreAdded (map log_record gs) out.old.items out.new.items) }
{
    for (object, entries) in logs {
        write_log(out, object, entries)?;
    }
    Ok(())
}

/// Writes a log, and drops it then.
fn write_log(out: &mut Vec<u8>, object: Object, entries: SpelledEntries) -> Result<(), AllocError>
    ensures { OnOk result (IsLogWritten object entries out.old.items out.new.items) }
{
    object.keep_widths()?;
    entries.len().keep_widths()?;
    add_log(out, &object, &entries)
}

/// Writes the groups of requests that took one path.
fn write_groups(out: &mut Vec<u8>, groups: Grouped<Path, u32>) -> Result<(), AllocError>
    requires { HaveMembers (groups_in groups) }
    ensures { let records = map group_record (groups_in groups) in
        OnOk result (AreAdded records out.old.items out.new.items) }
{
    for (_path, rids) in groups {
        let Some(group) = Group::new(rids) else {
            unreachable!()
        };
        group.keep_widths()?;
        add_group(out, &group)?;
    }
    Ok(())
}
