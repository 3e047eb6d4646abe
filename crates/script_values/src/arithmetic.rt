ghost use Rattle.std.specs.Prelude.{◌≡◌, ℤ, Bool, true, if◌then◌else◌, SomeIff};
ghost use Rattle.basis.specs.UnlessMemory.{Answers};
ghost use Rattle.script_tree.specs.Datum.{number};
ghost use Rattle.script_meaning.specs.Operators.{plus, minus, times, quotient, remainder, negated};

use crate::faults::Faulted;
use crate::kinds::{number_in, wrong_kind};
use crate::lists::joined_lists;
use crate::operand::{Held, Operand};
use crate::texts::{grown_text, joined_texts};
use basis::OrMemory;
use script_tree::fault::ScriptFault;
use script_tree::value::{Node, Value};
use std::alloc::{AllocError, Global};

/// The sum of two numbers, or two texts or two lists behind one another.
pub fn plus(alloc: Global, a: Operand, b: Operand) -> Result<Value, Faulted>
    ensures { Answers (λ v. v) (plus a.entry b.entry) result }
{
    let answer = match a.held {
        Held::Lent(value) => match &value.node {
            Node::Number(m) => sum(*m, b.value()),
            Node::Text(text) => return joined_texts(alloc, text, b),
            Node::List(values) => match values.clone() {
                Ok(values) => joined_lists(values, b.value()),
                Err(AllocError) => Err(OrMemory::Memory),
            },
            Node::Null | Node::Bool(_) => wrong_kind(),
        },
        Held::Own(value) => match value.node {
            Node::Number(m) => sum(m, b.value()),
            Node::Text(text) => return grown_text(alloc, text, b),
            Node::List(values) => joined_lists(values, b.value()),
            Node::Null | Node::Bool(_) => wrong_kind(),
        },
    };
    drop(b);
    answer
}

fn sum(m: i64, b: &Value) -> Result<Value, Faulted>
    ensures { Answers (λ v. v) (plus (number m) b.now) result }
{
    let n = number_in(b)?;
    if_it_fits(m.checked_add(n))
}

pub fn minus(a: &Value, b: &Value) -> Result<Value, Faulted>
    ensures { Answers (λ v. v) (minus a.now b.now) result }
{
    let m = number_in(a)?;
    let n = number_in(b)?;
    if_it_fits(m.checked_sub(n))
}

pub fn times(a: &Value, b: &Value) -> Result<Value, Faulted>
    ensures { Answers (λ v. v) (times a.now b.now) result }
{
    let m = number_in(a)?;
    let n = number_in(b)?;
    if_it_fits(m.checked_mul(n))
}

pub fn quotient(a: &Value, b: &Value) -> Result<Value, Faulted>
    ensures { Answers (λ v. v) (quotient a.now b.now) result }
{
    let m = number_in(a)?;
    let n = number_in(b)?;
    if n == 0 {
        return Err(OrMemory::Other(ScriptFault::ZeroDivisor));
    }
    if_it_fits(m.checked_div(n))
}

pub fn remainder(a: &Value, b: &Value) -> Result<Value, Faulted>
    ensures { Answers (λ v. v) (remainder a.now b.now) result }
{
    let m = number_in(a)?;
    let n = number_in(b)?;
    if n == 0 {
        return Err(OrMemory::Other(ScriptFault::ZeroDivisor));
    }
    if_it_fits(m.checked_rem(n))
}

pub fn negated(a: &Value) -> Result<Value, Faulted>
    ensures { Answers (λ v. v) (negated a.now) result }
{
    let n = number_in(a)?;
    if_it_fits(n.checked_neg())
}

/// The number that was computed, where 64 bits hold it.
fn if_it_fits(computed: Option<i64>) -> Result<Value, Faulted>
    ensures { (fits : Bool) (z : ℤ) → SomeIff computed (fits ≡ true) z
        → Answers (λ v. v) (if fits then Ok (number z) else Err ScriptFault.Overflow) result }
{
    match computed {
        Some(n) => Ok(Value::number(n)),
        None => Err(OrMemory::Other(ScriptFault::Overflow)),
    }
}
