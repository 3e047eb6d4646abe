ghost use Rattle.std.specs.Prelude.{◌≡◌};

use basis::Items;
use script_tree::request::{Request, Response};

/// What a collector saw: a request or a response, with the id of the request.
#[derive(Drop)]
pub enum TraceEvent {
    Asked(u32, Request),
    Answered(u32, Response),
}

/// The requests and responses of a period, in the order in which they were seen.
pub type Trace = Items<TraceEvent>;
