ghost use Rattle.std.specs.Prelude.{◌<◌, length};
ghost use Rattle.period.specs.Traces.{IsBalanced};
ghost use Rattle.precedence_graph.specs.Departures.{IsAnsweredHere};

use trace_format::trace_file::EventHead;
use trace_index::IndexedTrace;

/// The place of the request that is answered here; none where a request stands.
pub(crate) fn request_answered(trace: &IndexedTrace<'_>, place: usize) -> Option<usize>
    requires balanced { IsBalanced trace.now }
    requires within { place < length trace.now }
    ensures { IsAnsweredHere trace.now place result }
{
    match trace.head(place) {
        EventHead::Asks(_) => None,
        EventHead::Answers(_) => trace.partner(place),
    }
}
