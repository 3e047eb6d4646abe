/// What is to be ordered: the arrival of a request, one of its operations, or its departure.
#[derive(Clone, Copy)]
pub struct Node {
    /// Whether it is an arrival, the first node of its request.
    pub is_arrival: bool,
    /// The node just before it in its log, if that is of another request.
    pub log_before: Option<u32>,
    /// The node just after it in its log, if that is of another request.
    pub log_after: Option<u32>,
    /// Of an arrival: its place in the trace.
    pub at: u32,
    /// Of an arrival: the first place in the trace from which a departure has an edge of its own to
    /// it, since no request lies between the two.
    pub since: u32,
}

/// What stands at a place of the trace, with the node that it is.
#[derive(Clone, Copy)]
pub enum Event {
    /// The arrival of a request.
    Arrival(u32),
    /// The departure of a request.
    Departure(u32),
}

/// Nodes, each named by its place among them, and the trace in which requests arrive and depart.
#[derive(Drop)]
pub struct Graph {
    /// The nodes of a request stand one after another, its arrival first and its departure last.
    pub nodes: Vec<Node>,
    /// The arrivals and departures, in the order of time.
    pub trace: Vec<Event>,
}
