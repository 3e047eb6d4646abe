//! Which trees are programs: docs/language.md, "Check" and "Scope"; and what a program declares,
//! found by name.
#![tactic(auto)]

mod columns;
pub mod counts;
mod declaration;
mod declared;
mod expression;
pub mod fault;
mod found;
pub mod lookup;
pub mod program;
mod query;
mod scope;
mod statement;
