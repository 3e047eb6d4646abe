//! Tests of what lies between the objects and the commands. Each asserts one `bool`, which says that
//! what came is what was wanted; where memory runs out it is false.
#![tactic(auto)]

#[cfg(test)]
mod cells;
#[cfg(test)]
mod jobs;
#[cfg(test)]
mod objects;
#[cfg(test)]
mod programs;
#[cfg(test)]
mod tables;
