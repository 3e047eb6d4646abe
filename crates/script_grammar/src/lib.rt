//! Which tokens spell which tree: docs/language.md, "Grammar".
#![tactic(auto)]

pub mod joint;
pub mod words;
