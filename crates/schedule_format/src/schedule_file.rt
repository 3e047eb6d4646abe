ghost use Rattle.std.specs.Prelude.{◌≡◌, ◌<◌, Some, length};
ghost use Rattle.basis.specs.Lists.{nth};
ghost use Rattle.wire.specs.Files.{Decodes};
ghost use Rattle.schedule_format.specs.Moments.{schedule_format};
ghost use Rattle.schedule_format.specs.ScheduleFiles.{Spelled, spelled_once};

use crate::decoding::read_moment;
use crate::format::Moments;
use basis::OrMemory;
use period::schedule::Moment;
use std::alloc::Global;
use std::marker::Model;
use wire::fault::Unreadable;
use wire::records::Records;

/// A schedule as its file has it: a moment is read where it is wanted. Contracts see the moments.
#[derive(Drop)]
pub struct ScheduleFile {
    records: Records,
    ghost spelled: { Spelled records } by { spelled_once records },
}

impl Model for ScheduleFile {
    ghost use Rattle.std.specs.Prelude.{List};
    ghost use Rattle.std.specs.Coded.{coded_list};
    ghost use Rattle.period.specs.declared.schedule.Moment.{Moment as AnyMoment};
    ghost use Rattle.period.specs.contracts.schedule.Moment as item;

    ghost Value = { List AnyMoment };

    ghost coded = { coded_list item.the_row.coded };

    ghost view = { λ a. a.spelled.0 };
}

impl ScheduleFile {
    /// The schedule that the whole file spells.
    pub fn read(alloc: Global, bytes: Vec<u8>) -> Result<ScheduleFile, OrMemory<Unreadable>>
        ensures { Decodes schedule_format bytes.items result }
    {
        let records = Records::read::<Moments>(alloc, bytes)?;
        Ok(ScheduleFile { records })
    }

    /// How many moments there are.
    pub fn len(&self) -> usize
        ensures { result ≡ length self.now }
    {
        self.records.len()
    }

    /// The moment at a place. It takes no memory.
    pub fn moment(&self, place: usize) -> Moment
        requires { place < length self.now }
        ensures { nth self.now place ≡ Some result }
    {
        match read_moment(self.records.payload(place)) {
            Ok((moment, _)) => moment,
            Err(_) => unreachable!(),
        }
    }
}
