//! Fields of a report: counts, entries, logs, groups, and its records.
ghost use Rattle.std.specs.Prelude.{◌≡◌, ◌++◌, ◌<◌, ◌^◌, length, OnOk};
ghost use Rattle.wire.specs.Files.{LeavesRoom};
ghost use Rattle.wire.specs.Spellings.{TakesPart};
ghost use Rattle.report_format.specs.Reports.{any_record_field};

use crate::fields::{ChoiceField, FieldKind, U32Field};
use crate::format::{COUNT_TAG, GROUP_TAG, LOG_TAG, ReportRecord};
use crate::operations::{ActField, ObjectField};
use crate::parts::{List, Pair, room_behind_list, write_list};
use basis::OrMemory;
use period::group::Group;
use period::report::{Count, Log, LogEntry};
use std::alloc::{AllocError, Global};
use wire::fault::Unreadable;
use wire::field::read_u8;

type CountParts = Pair<U32Field, U32Field>;

type EntryParts = Pair<U32Field, Pair<U32Field, Pair<ActField, ChoiceField>>>;

type LogParts = Pair<ObjectField, List<EntryField>>;

pub(crate) struct CountField;

impl FieldKind for CountField {
    ghost use Rattle.report_format.specs.Reports.{count_field};
    ghost use Rattle.report_format.specs.ReportLaws.{count_one};

    type Item = Count;

    ghost field = { count_field };

    ghost one = { count_one };

    fn read(
        alloc: Global,
        bytes: &[u8],
        at: usize,
    ) -> Result<(Count, usize), OrMemory<Unreadable>> {
        let ((rid, operations), next) = CountParts::read(alloc, bytes, at)?;
        Ok((Count { rid, operations }, next))
    }

    fn room_behind(room: usize, count: &Count) -> Option<usize> {
        let left = U32Field::room_behind(room, &count.rid)?;
        U32Field::room_behind(left, &count.operations)
    }

    fn write(out: &mut Vec<u8>, count: &Count) -> Result<(), AllocError> {
        U32Field::write(out, &count.rid)?;
        U32Field::write(out, &count.operations)
    }
}

pub(crate) struct EntryField;

impl FieldKind for EntryField {
    ghost use Rattle.report_format.specs.Reports.{entry_field};
    ghost use Rattle.report_format.specs.ReportLaws.{entry_one};

    type Item = LogEntry;

    ghost field = { entry_field };

    ghost one = { entry_one };

    fn read(
        alloc: Global,
        bytes: &[u8],
        at: usize,
    ) -> Result<(LogEntry, usize), OrMemory<Unreadable>> {
        let ((rid, (number, (act, choice))), next) = EntryParts::read(alloc, bytes, at)?;
        Ok((
            LogEntry {
                rid,
                number,
                act,
                choice,
            },
            next,
        ))
    }

    fn room_behind(room: usize, entry: &LogEntry) -> Option<usize> {
        let left = U32Field::room_behind(room, &entry.rid)?;
        let left = U32Field::room_behind(left, &entry.number)?;
        let left = ActField::room_behind(left, &entry.act)?;
        ChoiceField::room_behind(left, &entry.choice)
    }

    fn write(out: &mut Vec<u8>, entry: &LogEntry) -> Result<(), AllocError> {
        U32Field::write(out, &entry.rid)?;
        U32Field::write(out, &entry.number)?;
        ActField::write(out, &entry.act)?;
        ChoiceField::write(out, &entry.choice)
    }
}

pub(crate) struct LogField;

impl FieldKind for LogField {
    ghost use Rattle.report_format.specs.Reports.{log_field};
    ghost use Rattle.report_format.specs.ReportLaws.{log_one};

    type Item = Log;

    ghost field = { log_field };

    ghost one = { log_one };

    fn read(alloc: Global, bytes: &[u8], at: usize) -> Result<(Log, usize), OrMemory<Unreadable>> {
        let ((object, entries), next) = LogParts::read(alloc, bytes, at)?;
        Ok((Log { object, entries }, next))
    }

    fn room_behind(room: usize, log: &Log) -> Option<usize> {
        let left = ObjectField::room_behind(room, &log.object)?;
        List::<EntryField>::room_behind(left, &log.entries)
    }

    fn write(out: &mut Vec<u8>, log: &Log) -> Result<(), AllocError> {
        ObjectField::write(out, &log.object)?;
        List::<EntryField>::write(out, &log.entries)
    }
}

pub(crate) struct GroupField;

impl FieldKind for GroupField {
    ghost use Rattle.report_format.specs.Reports.{group_field};
    ghost use Rattle.report_format.specs.ReportLaws.{group_one};

    type Item = Group;

    ghost field = { group_field };

    ghost one = { group_one };

    fn read(
        alloc: Global,
        bytes: &[u8],
        at: usize,
    ) -> Result<(Group, usize), OrMemory<Unreadable>> {
        let (rids, next) = List::<U32Field>::read(alloc, bytes, at)?;
        match Group::new(rids.into_vec()) {
            Some(group) => Ok((group, next)),
            None => Err(OrMemory::Other(Unreadable { at })),
        }
    }

    fn room_behind(room: usize, group: &Group) -> Option<usize> {
        room_behind_list::<U32Field>(room, group.rids())
    }

    fn write(out: &mut Vec<u8>, group: &Group) -> Result<(), AllocError> {
        write_list::<U32Field>(out, group.rids())
    }
}

/// The record at the start of a payload, and the place behind it.
pub(crate) fn read_record(
    alloc: Global,
    payload: &[u8],
) -> Result<(ReportRecord, usize), OrMemory<Unreadable>>
    ensures { TakesPart (λ x. x) any_record_field payload.now 0 result }
{
    let (tag, next) = read_u8(payload, 0)?;
    match tag {
        COUNT_TAG => {
            let (count, next) = CountField::read(alloc, payload, next)?;
            Ok((ReportRecord::Count(count), next))
        }
        LOG_TAG => {
            let (log, next) = LogField::read(alloc, payload, next)?;
            Ok((ReportRecord::Log(log), next))
        }
        GROUP_TAG => {
            let (group, next) = GroupField::read(alloc, payload, next)?;
            Ok((ReportRecord::Group(group), next))
        }
        _ => Err(OrMemory::Other(Unreadable { at: 0 })),
    }
}
