//! Tests of the crates of a program's text, of what it means and of its code, and nothing else, so
//! that each is proved once.
#![tactic(auto)]

#[cfg(test)]
mod nodes;
#[cfg(test)]
mod pages;
#[cfg(test)]
mod programs;
#[cfg(test)]
mod texts;
