ghost use Rattle.std.specs.Prelude.{◌≡◌, [], List, map, OnOk};
ghost use Rattle.script_tree.specs.Objects.{is_same};
ghost use Rattle.script_tree.specs.declared.operation.Object.{Object as Used};
ghost use Rattle.period.specs.declared.report.LogEntry.{LogEntry as Entry};
ghost use Rattle.report_format.specs.Reports.{entry_field};
ghost use Rattle.trace_and_report.specs.Draft.{spelled_log};
ghost use Rattle.trace_and_report.specs.Grouped.{and_member, entries_in};

use indexmap::IndexMap;
use period::report::LogEntry;
use report_format::appending::SpelledEntries;
use script_tree::operation::Object;
use std::alloc::{AllocError, Global};

/// Objects in the order of their first use, each with the entries of its log as a report has them.
pub(crate) type Logs = IndexMap<Object, SpelledEntries>;

/// No log.
pub(crate) fn no_logs(alloc: Global) -> Logs
    ensures { entries_in result ≡ [] }
{
    IndexMap::new(alloc)
}

/// Puts an entry behind the others of its object's log. The log of a new object goes last.
pub(crate) fn add_entry(
    alloc: Global,
    logs: &mut Logs,
    object: Object,
    entry: &LogEntry,
) -> Result<(), AllocError>
    requires { entry_field.allows entry.now }
    ensures { (gs : List (Used × List Entry)) → entries_in logs.old ≡ map spelled_log gs
        → OnOk result
        (entries_in logs.new ≡ map spelled_log (and_member is_same object entry.now gs)) }
{
    let entries = logs.entry(object)?.or_insert(SpelledEntries::new(alloc));
    entries.push(entry)?;
    Ok(())
}
