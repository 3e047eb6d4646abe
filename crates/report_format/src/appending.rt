//! The file of a report that is made a record at a time, and a log's entries before its record.
ghost use Rattle.std.specs.Prelude.{List, [], ◌∷◌, ◌≡◌, ◌++◌, ◌<◌, ◌^◌, length, IfOk, OnOk, IsTrue};
ghost use Rattle.wire.specs.Files.{LeavesRoom, file_spelling, record_spelling};
ghost use Rattle.period.specs.declared.report.LogEntry.{LogEntry};
ghost use Rattle.report_format.specs.Parts.{list_field};
ghost use Rattle.report_format.specs.Operations.{u32_field};
ghost use Rattle.report_format.specs.Reports.{report_format, entry_field};
ghost use Rattle.report_format.specs.Spelled.{spelled, log_with, log_payload};
ghost use Rattle.report_format.specs.declared.format.ReportRecord.TheVariants as it;

use crate::encoding::{LentRecord, LentRecords};
use crate::fields::FieldKind;
use crate::format::{LOG_TAG, ReportRecords};
use crate::operations::ObjectField;
use crate::records::EntryField;
use period::group::Group;
use period::report::{Count, LogEntry};
use script_tree::operation::Object;
use std::alloc::{AllocError, Global};
use std::marker::Model;
use wire::record::{RecordFormat, RecordWriter};
use wire::writing::{write_u8, write_u32};

/// As many as 32 bits count.
const MOST_COUNTED: usize = u32::MAX as usize;

/// The entries of an object's log as its record spells them, one behind the other, and how many
/// there are.
#[derive(Drop)]
pub struct SpelledEntries {
    count: u32,
    bytes: Vec<u8>,
}

impl Model for SpelledEntries {
    ghost use Rattle.report_format.specs.Spelled.{Spelled, coded_spelled};

    ghost Value = { Spelled };

    ghost coded = { coded_spelled };

    ghost view = { λ a. record { count = a.count; bytes = a.bytes.items } };
}

impl SpelledEntries {
    /// Without entries.
    pub fn new(alloc: Global) -> SpelledEntries
        ensures { result ≡ spelled [] }
    {
        SpelledEntries {
            count: 0,
            bytes: Vec::new(alloc),
        }
    }

    /// How many there are.
    pub fn len(&self) -> u32
        ensures { result ≡ self.now.count }
    {
        self.count
    }

    /// Puts an entry behind the others. One more than 32 bits count is answered as want of memory.
    pub fn push(&mut self, entry: &LogEntry) -> Result<(), AllocError>
        requires { entry_field.allows entry.now }
        ensures { (entries : List LogEntry) → self.old ≡ spelled entries
            → OnOk result (self.new ≡ spelled (entries ++ entry.now ∷ [])) }
    {
        let Some(count) = self.count.checked_add(1) else {
            return Err(AllocError);
        };
        EntryField::write(&mut self.bytes, entry)?;
        self.count = count;
        Ok(())
    }
}

/// The file of a report without records.
pub fn begin(alloc: Global) -> Result<Vec<u8>, AllocError>
    ensures { IfOk result (λ out. out.items ≡ file_spelling report_format []) }
{
    Vec::from_slice(alloc, ReportRecords::magic())
}

/// How many bytes the payload of a record has.
fn payload_len<'a>(lent: &LentRecord<'a>) -> Result<u32, AllocError>
    ensures { IfOk result (λ len. len ≡ length (report_format.payload lent.now)) }
{
    match LentRecords::room_behind(MOST_COUNTED, lent) {
        Some(left) => Ok((MOST_COUNTED - left) as u32),
        None => Err(AllocError),
    }
}

/// Puts a record behind the bytes. One that 32 bits don't count is answered as want of memory.
fn add_record<'a>(out: &mut Vec<u8>, lent: &LentRecord<'a>) -> Result<(), AllocError>
    ensures { OnOk result
        (out.new.items ≡ out.old.items ++ record_spelling report_format lent.now) }
{
    let len = payload_len(lent)?;
    write_u32(out, len)?;
    LentRecords::write(out, lent)
}

/// Puts the record of a count behind the bytes.
pub fn add_count(out: &mut Vec<u8>, count: Count) -> Result<(), AllocError>
    ensures { OnOk result
        (out.new.items ≡ out.old.items ++ record_spelling report_format (it.Count count)) }
{
    add_record(out, &LentRecord::count(&count))
}

/// What is left of so much room behind the payload of a log's record.
fn room_behind_log(room: usize, object: &Object, entries: &SpelledEntries) -> Option<usize>
    ensures { LeavesRoom room (log_payload object.now entries.now) result }
{
    let left = ObjectField::room_behind(room.checked_sub(1)?, object)?;
    left.checked_sub(4)?.checked_sub(entries.bytes.len())
}

/// How many bytes the payload of a log's record has.
fn log_len(object: &Object, entries: &SpelledEntries) -> Result<u32, AllocError>
    ensures { IfOk result (λ len. len ≡ length (log_payload object.now entries.now)) }
{
    match room_behind_log(MOST_COUNTED, object, entries) {
        Some(left) => Ok((MOST_COUNTED - left) as u32),
        None => Err(AllocError),
    }
}

/// Writes the payload of a log's record.
fn write_log(out: &mut Vec<u8>, object: &Object, entries: &SpelledEntries) -> Result<(), AllocError>
    requires { length (log_payload object.now entries.now) < 2 ^ 32 }
    ensures { OnOk result (out.new.items ≡ out.old.items ++ log_payload object.now entries.now) }
{
    write_u8(out, LOG_TAG)?;
    ObjectField::write(out, object)?;
    write_u32(out, entries.count)?;
    out.extend_from_slice(&entries.bytes)
}

/// Puts the record of a log behind the bytes. One that 32 bits don't count is answered as want of
/// memory.
pub fn add_log(
    out: &mut Vec<u8>,
    object: &Object,
    entries: &SpelledEntries,
) -> Result<(), AllocError>
    ensures { (es : List LogEntry) → entries.now ≡ spelled es → OnOk result
        (out.new.items
        ≡ out.old.items ++ record_spelling report_format (it.Log (log_with object.now es))) }
{
    let len = log_len(object, entries)?;
    write_u32(out, len)?;
    write_log(out, object, entries)
}

/// Whether 32 bits count the ids of a group.
fn are_counted(rids: &[u32]) -> bool
    ensures { IsTrue result → (list_field u32_field).allows rids.now }
{
    rids.len() <= MOST_COUNTED
}

/// Puts the record of a group behind the bytes. One that 32 bits don't count is answered as want
/// of memory.
pub fn add_group(out: &mut Vec<u8>, group: &Group) -> Result<(), AllocError>
    ensures { OnOk result
        (out.new.items ≡ out.old.items ++ record_spelling report_format (it.Group group.now)) }
{
    if !are_counted(group.rids()) {
        return Err(AllocError);
    }
    add_record(out, &LentRecord::group(group))
}
