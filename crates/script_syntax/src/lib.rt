//! From the bytes of a program to its tree: docs/language.md, "Tokens" and "Grammar".
#![tactic(auto)]

mod declaration;
mod expression;
mod feed;
pub mod parse;
mod query;
mod statement;
