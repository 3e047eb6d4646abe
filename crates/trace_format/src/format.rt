use period::trace::TraceEvent;
use wire::record::RecordFormat;

/// The format of traces, with the number of requests that were read.
#[derive(Drop)]
pub(crate) struct Events {
    pub(crate) asked: usize,
}

impl RecordFormat for Events {
    type Item = TraceEvent;

    ghost use Rattle.trace_format.specs.Events.{trace_format};

    ghost format = { trace_format };

    fn magic() -> &'static [u8] {
        b"SSCOTRC1"
    }
}
