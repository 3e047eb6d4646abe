//! Tests of threads, over memory: that two of them are served at once, and that none waits for ever.
#![tactic(auto)]

#[cfg(test)]
mod desks;
#[cfg(test)]
mod gates;
#[cfg(test)]
mod programs;
#[cfg(test)]
mod served;
