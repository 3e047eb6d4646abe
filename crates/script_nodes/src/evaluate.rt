ghost use Rattle.std.specs.Prelude.{◌≡◌, ◌+◌};
ghost use Rattle.basis.specs.UnlessMemory.{Answers};
ghost use Rattle.script_meaning.specs.Operands.{first, second};
ghost use Rattle.script_nodes.specs.Evaluated.{evaluated};

use crate::filling::all_filled;
use crate::primitive::Primitive;
use crate::steps::Steps;
use basis::OrMemory;
use script_tree::fault::ScriptFault;
use script_tree::request::Request;
use script_tree::value::Value;
use script_values::{
    Arguments, Called, Faulted, Operand, as_list, binary, bool_in, call_of, copied, indexed,
    listed, printed, status_in, transact_op, unary,
};
use std::alloc::Global;
use std::sync::ledger::Ledger;

/// What a node comes to. For an operand that isn't there null stands, and one too many isn't looked
/// at.
pub fn evaluate<L: Ledger>(
    alloc: Global,
    primitive: Primitive,
    operands: &[Value],
    request: &Request,
    steps: &mut Steps<L>,
) -> Result<Called, Faulted>
    ensures answers { Answers (λ c. c) (evaluated request.now primitive.entry operands.now) result }
    ensures tick { steps.new ≡ steps.old + 1 }
{
    steps.tick();
    answer(alloc, primitive, operands, request)
}

fn answer(
    alloc: Global,
    primitive: Primitive,
    operands: &[Value],
    request: &Request,
) -> Result<Called, Faulted>
    ensures { Answers (λ c. c) (evaluated request.now primitive.entry operands.now) result }
{
    let absent = Value::null();
    let Arguments { first, second, .. } = Arguments::new(operands, &absent);
    answer_of(alloc, primitive, first, second, operands, request)
}

/// The same, where the first two operands, or null in their places, are known.
fn answer_of(
    alloc: Global,
    primitive: Primitive,
    left: &Value,
    right: &Value,
    operands: &[Value],
    request: &Request,
) -> Result<Called, Faulted>
    requires left { left.now ≡ first operands.now }
    requires right { right.now ≡ second operands.now }
    ensures { Answers (λ c. c) (evaluated request.now primitive.entry operands.now) result }
{
    match primitive {
        Primitive::Literal(value) => Ok(Called::Value(value.clone()?)),
        Primitive::Pass => Ok(Called::Value(left.clone()?)),
        Primitive::Unary(operator) => Ok(Called::Value(unary(operator, left)?)),
        Primitive::Binary(operator) => {
            let (left, right) = (Operand::lent(left), Operand::lent(right));
            Ok(Called::Value(binary(alloc, operator, left, right)?))
        }
        Primitive::Index => Ok(Called::Value(indexed(alloc, left, right)?)),
        Primitive::List => Ok(Called::Value(listed(copied(alloc, operands)?)?)),
        Primitive::Builtin(builtin) => call_of(alloc, request, &[], builtin, operands),
        Primitive::OnStore(builtin, store) => {
            call_of(alloc, request, store.as_bytes(), builtin, operands)
        }
        Primitive::Transact(shapes) => {
            let statements = all_filled(alloc, shapes, operands)?;
            Ok(Called::Operation(transact_op(alloc, statements)?))
        }
        Primitive::Decide => Ok(Called::Value(Value::bool(bool_in(left)?))),
        Primitive::Status => Ok(Called::Value(Value::number(status_in(left)? as i64))),
        Primitive::Echo => Ok(Called::Value(Value::shared_text(printed(alloc, left)?))),
        Primitive::Call => Ok(Called::Value(Value::null())),
        Primitive::Unknown => Err(OrMemory::Other(ScriptFault::WrongKind)),
        Primitive::Member(passed) => match as_list(left) {
            None => Err(OrMemory::Other(ScriptFault::WrongKind)),
            Some(values) => Ok(Called::Value(Value::bool(passed < values.as_slice().len()))),
        },
    }
}
