//! Tables of what is kept of requests: a number for each id, and a place for each operation.
#![tactic(auto)]

pub mod id_table;
pub mod operation_table;

pub use id_table::IdTable;
pub use operation_table::OperationTable;
