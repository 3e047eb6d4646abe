ghost use Rattle.std.specs.Prelude.{◌≡◌, ◌++◌, length, OnOk, IfOk};
ghost use Rattle.wire.specs.Files.{Spells};
ghost use Rattle.schedule_format.specs.Moments.{schedule_format, moment_spelling, AreMoments, IsMoment};

use crate::format::Moments;
use period::schedule::{Moment, Schedule};
use script_tree::operation::Choice;
use std::alloc::{AllocError, Global};
use wire::file::write_file;
use wire::record::RecordWriter;
use wire::writing::{write_choice, write_u8, write_u32};

/// How many bytes the payload of a moment's record has.
fn payload_len(moment: Moment) -> usize
    ensures { result ≡ length (moment_spelling moment) }
{
    match moment {
        Moment::Arrive(_) | Moment::Depart(_) => 5,
        Moment::Act(_, Choice::Nothing) => 6,
        Moment::Act(_, Choice::Number(_)) => 14,
    }
}

fn write_moment(out: &mut Vec<u8>, moment: Moment) -> Result<(), AllocError>
    ensures { OnOk result (out.new.items ≡ out.old.items ++ moment_spelling moment) }
{
    match moment {
        Moment::Arrive(rid) => {
            write_u8(out, 1)?;
            write_u32(out, rid)
        }
        Moment::Act(rid, choice) => {
            write_u8(out, 2)?;
            write_u32(out, rid)?;
            write_choice(out, choice)
        }
        Moment::Depart(rid) => {
            write_u8(out, 3)?;
            write_u32(out, rid)
        }
    }
}

impl RecordWriter for Moments {
    fn room_behind(room: usize, moment: &Moment) -> Option<usize> {
        room.checked_sub(payload_len(*moment))
    }

    fn write(out: &mut Vec<u8>, moment: &Moment) -> Result<(), AllocError> {
        write_moment(out, *moment)
    }
}

/// The file that spells the schedule.
pub fn encode(alloc: Global, schedule: &Schedule) -> Result<Vec<u8>, AllocError>
    ensures { IfOk result (λ bytes. Spells schedule_format bytes.items schedule.now) }
{
    keep_widths(schedule.as_slice());
    write_file::<Moments>(alloc, schedule)
}

/// Tells what the types of moments keep: the widths of their numbers.
fn keep_widths(moments: &[Moment])
    ensures { AreMoments moments.now }
{
    for moment in moments {
        keep_width(*moment);
    }
}

fn keep_width(moment: Moment)
    ensures { IsMoment moment }
{
    match moment {
        Moment::Arrive(_rid) | Moment::Depart(_rid) => {}
        Moment::Act(_rid, Choice::Nothing) => {}
        Moment::Act(_rid, Choice::Number(_number)) => {}
    }
}
