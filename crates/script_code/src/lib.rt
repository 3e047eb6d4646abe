//! Flat code: a program as one list of instructions.
#![tactic(auto)]

mod callee;
mod copying;
mod declarations;
mod emitter;
mod expressions;
pub mod instruction;
mod scope;
mod shapes;
mod statements;
pub mod translate;
