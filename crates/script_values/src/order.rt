ghost use Rattle.std.specs.Prelude.{◌≡◌};
ghost use Rattle.basis.specs.UnlessMemory.{Answers};
ghost use Rattle.script_tree.specs.Order.{compares};
ghost use Rattle.script_meaning.specs.Operators.{compared, ordered};

use crate::faults::Faulted;
use crate::kinds::{number_in, text_in, wrong_kind};
use script_tree::comparison::Comparison;
use script_tree::value::{Node, Value};

/// Whether two values compare so. Only two numbers and two texts come one before the other.
pub fn compared(comparison: Comparison, a: &Value, b: &Value) -> Result<Value, Faulted>
    ensures { Answers (λ v. v) (compared comparison a.now b.now) result }
{
    match comparison {
        Comparison::Equal | Comparison::Unequal => Ok(Value::bool(compares(comparison, a, b))),
        Comparison::Less | Comparison::AtMost | Comparison::Greater | Comparison::AtLeast => {
            ordered(comparison, a, b)
        }
    }
}

fn ordered(comparison: Comparison, a: &Value, b: &Value) -> Result<Value, Faulted>
    ensures { Answers (λ v. v) (ordered comparison a.now b.now) result }
{
    match &a.node {
        Node::Number(_) => {
            let _number = number_in(b)?;
        }
        Node::Text(_) => {
            let _text = text_in(b)?;
        }
        Node::Null | Node::Bool(_) | Node::List(_) => return wrong_kind(),
    }
    Ok(Value::bool(compares(comparison, a, b)))
}

fn compares(comparison: Comparison, a: &Value, b: &Value) -> bool
    ensures { result ≡ compares comparison a.now b.now }
{
    let order = a.compare(b);
    match comparison {
        Comparison::Equal => order.is_eq(),
        Comparison::Unequal => order.is_ne(),
        Comparison::Less => order.is_lt(),
        Comparison::AtMost => order.is_le(),
        Comparison::Greater => order.is_gt(),
        Comparison::AtLeast => order.is_ge(),
    }
}
