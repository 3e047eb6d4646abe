//! That a run never goes back, that runs which part show it, what the members of a group have with
//! which nothing is wrong, and what its steps cost: laws, and their proofs.
#![tactic(auto)]

pub mod law;
