//! The tokens of a program's text: docs/language.md, "Tokens".
#![tactic(auto)]

pub mod fault;
pub mod laws;
mod lexeme;
pub mod print;
pub mod scan;
pub mod shape;
mod text;
pub mod word;
