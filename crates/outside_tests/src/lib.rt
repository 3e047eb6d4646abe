//! Tests of the world outside as the system has it, and of inputs at their limits. Each asserts one `bool`,
//! which says that what came is what was wanted.
#![tactic(auto)]

#[cfg(test)]
mod files;
#[cfg(test)]
mod limits;
#[cfg(test)]
mod outputs;
