//! JSON texts, and what their trees give where they have a shape: docs/formats.md, "JSON files".
#![tactic(auto)]

pub mod reading;
pub mod shape;
pub mod text;

pub use reading::{NotJson, read_json};
pub use shape::Shape;
