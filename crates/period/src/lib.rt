//! What stands written of a period: its trace, which the auditor trusts; the server's report, of
//! which nothing says that it is true; and a schedule of it. Plain data.
#![tactic(auto)]

pub mod group;
pub mod report;
pub mod schedule;
pub mod trace;
