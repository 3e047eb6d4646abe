//! The keys of rows.
ghost use Rattle.std.specs.Prelude.{◌≡◌, IfOk};
ghost use Rattle.script_tree.specs.Datum.{text};
ghost use Rattle.script_tree.specs.Transactions.{key};
ghost use Rattle.object_tables.specs.Slots.{IsText};

use script_tree::text::Text;
use script_tree::value::{Node, Value, Values};
use std::alloc::AllocError;

/// A copy of the key of a row.
pub fn key_of(row: &Values) -> Result<Text, AllocError>
    requires { IsText (key row.now) }
    ensures { IfOk result (λ bytes. key row.now ≡ text bytes) }
{
    match row.as_slice().first() {
        Some(value) => text_of(value),
        None => unreachable!(),
    }
}

/// A copy of a text.
fn text_of(value: &Value) -> Result<Text, AllocError>
    requires { IsText value.now }
    ensures { IfOk result (λ bytes. value.now ≡ text bytes) }
{
    match &value.node {
        Node::Text(text) => text.as_ref().clone(),
        Node::Null | Node::Bool(_) | Node::Number(_) | Node::List(_) => unreachable!(),
    }
}
