//! What an audit answers: the definitions, in specs/, of the faults of a report, of the order of
//! its events, of its groups and of the verdict, and the law that what is accepted explains the trace.
#![tactic(auto)]

pub mod law;
pub mod node;
pub mod reason;
pub mod verdict;
