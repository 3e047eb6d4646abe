/// Where a test can hold a worker back. Nothing is promised of a gate.
pub trait Gate {
    /// A worker passes with a job. The places: 0 after a request's arrival and before its first
    /// operation, 1 at the start of a group of an audit, 2 after a request's departure.
    fn pass(&self, job: u64, place: u8);
}
