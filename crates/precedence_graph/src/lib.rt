//! Which request of a trace precedes which, and from where on in the trace that is direct.
#![tactic(auto)]

mod answered;
pub mod edges;
pub mod law;
pub mod since;
