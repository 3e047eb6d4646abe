//! The normal spelling of a program: docs/language.md, "How a program text prints".
#![tactic(auto)]

pub mod declaration;
mod expression;
pub mod laws;
mod name;
pub mod printer;
mod query;
mod statement;
