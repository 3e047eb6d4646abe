ghost use Rattle.std.specs.Prelude.{◌≡◌, MatchOption};
ghost use Rattle.basis.specs.UnlessMemory.{Answers};
ghost use Rattle.script_meaning.specs.Kinds.{bool_in, number_in, text_in, list_in};

use crate::faults::Faulted;
use basis::OrMemory;
use script_tree::fault::ScriptFault;
use script_tree::text::Text;
use script_tree::value::{Node, Value, Values};
use std::sync::Arc;

/// The boolean that a value is.
pub fn bool_in(value: &Value) -> Result<bool, Faulted>
    ensures { Answers (λ b. b) (bool_in value.now) result }
{
    match &value.node {
        Node::Bool(b) => Ok(*b),
        Node::Null | Node::Number(_) | Node::Text(_) | Node::List(_) => wrong_kind(),
    }
}

/// The number that a value is.
pub fn number_in(value: &Value) -> Result<i64, Faulted>
    ensures { Answers (λ n. n) (number_in value.now) result }
{
    match &value.node {
        Node::Number(n) => Ok(*n),
        Node::Null | Node::Bool(_) | Node::Text(_) | Node::List(_) => wrong_kind(),
    }
}

/// The text that a value is.
pub fn text_in(value: &Value) -> Result<&Arc<Text>, Faulted>
    ensures { Answers (λ text. text.now.value) (text_in value.now) result }
{
    match &value.node {
        Node::Text(text) => Ok(text),
        Node::Null | Node::Bool(_) | Node::Number(_) | Node::List(_) => wrong_kind(),
    }
}

/// The list that a value is.
pub fn list_in(value: &Value) -> Result<&Values, Faulted>
    ensures { Answers (λ values. values.now) (list_in value.now) result }
{
    match as_list(value) {
        Some(values) => Ok(values),
        None => wrong_kind(),
    }
}

/// The list that a value is, where it is one.
pub fn as_list(value: &Value) -> Option<&Values>
    ensures { MatchOption result (list_in value.now ≡ Err ScriptFault.WrongKind)
        (λ values. list_in value.now ≡ Ok values.now) }
{
    match &value.node {
        Node::List(values) => Some(values),
        Node::Null | Node::Bool(_) | Node::Number(_) | Node::Text(_) => None,
    }
}

/// The fault that a value isn't of the kind that is wanted.
pub fn wrong_kind<T>() -> Result<T, Faulted>
    ensures { result ≡ Err (OrMemory.Other ScriptFault.WrongKind) }
{
    Err(OrMemory::Other(ScriptFault::WrongKind))
}
