ghost use Rattle.std.specs.Prelude.{◌≡◌};
ghost use Rattle.basis.specs.UnlessMemory.{Answers};
ghost use Rattle.script_tree.specs.Datum.{text as texted, list, data_of};
ghost use Rattle.script_meaning.specs.Operators.{inverted, indexed, unary_answer, binary_answer};

use crate::arithmetic::{minus, negated, plus, quotient, remainder, times};
use crate::faults::Faulted;
use crate::kinds::{bool_in, number_in, wrong_kind};
use crate::lists::at_place;
use crate::operand::Operand;
use crate::order::compared;
use script_tree::syntax::operator::{BinaryOperator, UnaryOperator};
use script_tree::text::Text;
use script_tree::value::{Node, Value, Values};
use std::alloc::Global;

/// The value of an operator before its operand.
pub fn unary(operator: UnaryOperator, operand: &Value) -> Result<Value, Faulted>
    ensures { Answers (λ v. v) (unary_answer operator operand.now) result }
{
    match operator {
        UnaryOperator::Not => inverted(operand),
        UnaryOperator::Negate => negated(operand),
    }
}

/// The value of an operator between two operands. `+` uses them up: a text or a list that nobody
/// else has grows where it lies.
pub fn binary(
    alloc: Global,
    operator: BinaryOperator,
    left: Operand,
    right: Operand,
) -> Result<Value, Faulted>
    ensures { Answers (λ v. v) (binary_answer operator left.entry right.entry) result }
{
    let answer = match operator {
        BinaryOperator::Compare(comparison) => compared(comparison, left.value(), right.value()),
        BinaryOperator::Plus => return plus(alloc, left, right),
        BinaryOperator::Minus => minus(left.value(), right.value()),
        BinaryOperator::Times => times(left.value(), right.value()),
        BinaryOperator::Quotient => quotient(left.value(), right.value()),
        BinaryOperator::Remainder => remainder(left.value(), right.value()),
    };
    drop(left);
    drop(right);
    answer
}

fn inverted(operand: &Value) -> Result<Value, Faulted>
    ensures { Answers (λ v. v) (inverted operand.now) result }
{
    Ok(Value::bool(!bool_in(operand)?))
}

/// The member of a list, or the byte of a text, at a place.
pub fn indexed(alloc: Global, whole: &Value, place: &Value) -> Result<Value, Faulted>
    ensures { Answers (λ v. v) (indexed whole.now place.now) result }
{
    match &whole.node {
        Node::Text(text) => byte_at(alloc, text, place),
        Node::List(values) => member_at(values, place),
        Node::Null | Node::Bool(_) | Node::Number(_) => wrong_kind(),
    }
}

fn byte_at(alloc: Global, text: &Text, place: &Value) -> Result<Value, Faulted>
    ensures { Answers (λ v. v) (indexed (texted text.now) place.now) result }
{
    let byte = *at_place(text.as_bytes(), number_in(place)?)?;
    Ok(Value::text(alloc, Text::from_vec([byte].to_vec(alloc)?))?)
}

fn member_at(values: &Values, place: &Value) -> Result<Value, Faulted>
    ensures { Answers (λ v. v) (indexed (list (data_of values.now)) place.now) result }
{
    Ok(at_place(values.as_slice(), number_in(place)?)?.clone()?)
}
