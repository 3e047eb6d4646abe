ghost use Rattle.std.specs.Prelude.{IfOk};
ghost use Rattle.period.specs.Traces.{IsBalanced};
ghost use Rattle.precedence_graph.specs.Since.{AreSince};

use crate::answered::request_answered;
use std::alloc::{AllocError, Global};
use trace_index::IndexedTrace;

/// At each event the greatest place of a request that was answered before it; 0 where there is
/// none. A request that was answered before that place precedes the event, but not directly.
/// A place that 32 bits don't hold is answered as want of memory.
pub fn since_places(alloc: Global, trace: &IndexedTrace<'_>) -> Result<Vec<u32>, AllocError>
    requires { IsBalanced trace.now }
    ensures { IfOk result (λ since. AreSince trace.now since.items) }
{
    let mut since = Vec::with_capacity(alloc, trace.len())?;
    let mut greatest = 0;
    for place in 0..trace.len() {
        since.push(greatest)?;
        if let Some(comes) = request_answered(trace, place) {
            let comes = u32::try_from(comes).map_err(|_| AllocError)?;
            greatest = comes.max(greatest);
        }
    }
    Ok(since)
}
