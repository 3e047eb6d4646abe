//! What operators, built-in functions and operations make of values: a value, an operation, or a
//! fault, as `script_meaning` defines it. A value that is made from others shares what is in them.
#![tactic(auto)]

mod arguments;
mod arithmetic;
mod builtins;
mod faults;
mod kinds;
mod lists;
mod numbers;
mod operand;
mod operations;
mod operators;
mod order;
mod output;
mod texts;
mod transactions;

pub use arguments::Arguments;
pub use builtins::{Called, call_of};
pub use faults::Faulted;
pub use kinds::{as_list, bool_in};
pub use lists::{copied, listed};
pub use operand::Operand;
pub use operations::status_in;
pub use operators::{binary, indexed, unary};
pub use output::Output;
pub use texts::printed;
pub use transactions::{Unchecked, transact_op};
