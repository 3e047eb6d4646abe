use crate::reason::Reason;
use period::schedule::Schedule;

/// What an audit answers.
#[derive(Drop)]
pub enum Verdict {
    /// The report is accepted: an order in which the requests can have been served, how many nodes
    /// their groups are to evaluate, and the steps that all of them spend.
    Accepted {
        schedule: Schedule,
        evaluated: u64,
        plain: u64,
    },
    Rejected(Reason),
}
