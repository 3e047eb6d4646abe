//! Tests of the crates of plain data, of files of records and of the world outside, and nothing
//! else, so that each is proved once.
#![tactic(auto)]

#[cfg(test)]
mod fields;
#[cfg(test)]
mod json;
#[cfg(test)]
mod members;
#[cfg(test)]
mod memory;
#[cfg(test)]
mod reports;
#[cfg(test)]
mod rolls;
#[cfg(test)]
mod schedules;
#[cfg(test)]
mod traces;
#[cfg(test)]
mod values;
