ghost use Rattle.std.specs.Prelude.{◌≡◌};

use period::schedule::Moment;
use wire::record::RecordFormat;

/// The format of schedules. Each moment may stand behind any others.
#[derive(Drop)]
pub(crate) struct Moments;

impl RecordFormat for Moments {
    type Item = Moment;

    ghost use Rattle.schedule_format.specs.Moments.{schedule_format};

    ghost format = { schedule_format };

    fn magic() -> &'static [u8] {
        b"SSCOSCH1"
    }
}
