ghost use Rattle.std.specs.Prelude.{◌≡◌, IfOk};
ghost use Rattle.basis.specs.UnlessMemory.{Answers};
ghost use Rattle.script_tree.specs.Datum.{text};
ghost use Rattle.script_meaning.specs.BuiltinCalls.{built_in, parameter, parameter_in};
ghost use Rattle.script_meaning.specs.Operands.{OpAnswer};
ghost use Rattle.script_meaning.specs.Operators.{Answer, length_of, sliced, part_of};
ghost use Rattle.script_values.specs.CallsMade.{made, call_with, value_made, operation_made};

use crate::arguments::Arguments;
use crate::faults::Faulted;
use crate::kinds::{number_in, text_in, wrong_kind};
use crate::lists::{appended, list_part};
use crate::numbers::as_number;
use crate::operations::{clock_op, get_op, put_op, random_op, read_op, remove_op, write_op};
use crate::texts::{as_text, escaped, kind_of, text_part};
use script_tree::operation::Op;
use script_tree::request::{Parameter, Request};
use script_tree::syntax::builtin::Builtin;
use script_tree::text::Text;
use script_tree::value::{Node, Value};
use std::alloc::{AllocError, Global};

/// What the call of a built-in function comes to.
#[derive(Drop)]
pub enum Called {
    Value(Value),
    /// An operation, which is still to be issued.
    Operation(Op),
}

/// The call of a built-in function with these values, for a request. One on a store has the store's
/// name.
pub fn call_of(
    alloc: Global,
    request: &Request,
    store: &[u8],
    builtin: Builtin,
    values: &[Value],
) -> Result<Called, Faulted>
    ensures { Answers (λ c. c) (made (built_in request.now store.now builtin values.now)) result }
{
    let absent = Value::null();
    let arguments = Arguments::new(values, &absent);
    call_with(alloc, request, store, builtin, arguments)
}

fn call_with(
    alloc: Global,
    request: &Request,
    store: &[u8],
    builtin: Builtin,
    arguments: Arguments,
) -> Result<Called, Faulted>
    ensures { Answers (λ c. c)
        (made (call_with request.now store.now builtin arguments.entry)) result }
{
    let Arguments {
        first,
        second,
        third,
    } = arguments;
    match builtin {
        Builtin::Len => value_made(length_of(first)),
        Builtin::Str => value_made(as_text(alloc, first)),
        Builtin::Escape => value_made(escaped(alloc, first)),
        Builtin::Num => value_made(as_number(alloc, first)),
        Builtin::Slice => value_made(sliced(alloc, first, second, third)),
        Builtin::Append => value_made(appended(alloc, first, second)),
        Builtin::Kind => Ok(Called::Value(kind_of(alloc, first)?)),
        Builtin::Param => value_made(parameter_in(alloc, request, first)),
        Builtin::Method => Ok(Called::Value(copy_of(alloc, request.method())?)),
        Builtin::Path => Ok(Called::Value(copy_of(alloc, request.path())?)),
        Builtin::Body => Ok(Called::Value(copy_of(alloc, request.body())?)),
        Builtin::Read => operation_made(read_op(first)),
        Builtin::Write => operation_made(write_op(first, second)),
        Builtin::Get => operation_made(get_op(alloc, store, first)),
        Builtin::Put => operation_made(put_op(alloc, store, first, second)),
        Builtin::Remove => operation_made(remove_op(alloc, store, first)),
        Builtin::Clock => Ok(Called::Operation(clock_op())),
        Builtin::Random => operation_made(random_op(first)),
    }
}

/// A value as what a call comes to, or its fault.
fn value_made(told: Result<Value, Faulted>) -> Result<Called, Faulted>
    ensures { (answer : Answer) → Answers (λ v. v) answer told
        → Answers (λ c. c) (value_made answer) result }
{
    Ok(Called::Value(told?))
}

/// An operation as what a call comes to, or its fault.
fn operation_made(told: Result<Op, Faulted>) -> Result<Called, Faulted>
    ensures { (answer : OpAnswer) → Answers (λ op. op) answer told
        → Answers (λ c. c) (operation_made answer) result }
{
    Ok(Called::Operation(told?))
}

/// How many bytes a text has, or members a list.
fn length_of(value: &Value) -> Result<Value, Faulted>
    ensures { Answers (λ v. v) (length_of value.now) result }
{
    match &value.node {
        Node::Text(text) => Ok(Value::number(text.as_bytes().len() as i64)),
        Node::List(values) => Ok(Value::number(values.as_slice().len() as i64)),
        Node::Null | Node::Bool(_) | Node::Number(_) => wrong_kind(),
    }
}

/// The part of a list or a text between two places.
fn sliced(alloc: Global, value: &Value, from: &Value, to: &Value) -> Result<Value, Faulted>
    ensures { Answers (λ v. v) (sliced value.now from.now to.now) result }
{
    let from = number_in(from)?;
    let to = number_in(to)?;
    match &value.node {
        Node::Text(text) => text_part(alloc, text, from, to),
        Node::List(values) => list_part(alloc, values, from, to),
        Node::Null | Node::Bool(_) | Node::Number(_) => wrong_kind(),
    }
}

/// The request's parameter of a name.
fn parameter_in(alloc: Global, request: &Request, name: &Value) -> Result<Value, Faulted>
    ensures { Answers (λ v. v) (parameter_in request.now name.now) result }
{
    let name = text_in(name)?;
    Ok(parameter(alloc, name.as_bytes(), request.parameters().as_slice())?)
}

/// The first of these parameters with a name, or null.
fn parameter(alloc: Global, name: &[u8], parameters: &[Parameter]) -> Result<Value, AllocError>
    ensures { IfOk result (λ v. v ≡ parameter name.now parameters.now) }
{
    for parameter in parameters {
        if name == parameter.name.as_bytes() {
            return copy_of(alloc, &parameter.value);
        }
    }
    Ok(Value::null())
}

fn copy_of(alloc: Global, source: &Text) -> Result<Value, AllocError>
    ensures { IfOk result (λ v. v ≡ text source.now) }
{
    Value::text(alloc, source.clone()?)
}
