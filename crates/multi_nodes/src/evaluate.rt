ghost use Rattle.std.specs.Prelude.{◌≡◌, ◌<◌, ◌-◌, ◌+◌, ◌&&◌, ◌||◌, ℕ, not, length, get_or, Ok, Err, IfOk, OnOk};
ghost use Rattle.std.specs.List.{list_all};
ghost use Rattle.basis.specs.UnlessMemory.{Answers, UnlessMemory};
ghost use Rattle.script_tree.specs.Alike.{same_datum};
ghost use Rattle.script_values.specs.declared.builtins.Called.TheVariants as called;
ghost use Rattle.multivalue.specs.Many.{member_value};
ghost use Rattle.multi_nodes.specs.Members.{answer_at, members_at, is_shared};
ghost use Rattle.multi_nodes.specs.Charges.{
  agree,
  asks_request,
  cost_at,
  evaluations_if,
  price,
  takes_request,
};
ghost use Rattle.multi_nodes.specs.Answers.{Counts, Have, IsApart, Issues, nothing};

use crate::evaluations::Evaluations;
use crate::group::Group;
use crate::together::Together;
use basis::{Items, OrMemory};
use multivalue::law::members_keep_their_values;
use multivalue::{Apart, Multi};
use script_nodes::primitive::Primitive;
use script_tree::fault::ScriptFault;
use script_tree::operation::Op;
use script_tree::syntax::builtin::Builtin;
use script_tree::value::{Value, Values};
use script_values::{Called, Faulted};
use std::alloc::{AllocError, Global};
use std::sync::ledger::Ledger;

/// Puts a member's operands in the place of what is there. No caller lacks one.
fn take_operands(own: &mut Vec<Value>, operands: &[Multi], member: usize) -> Result<(), AllocError>
    ensures { OnOk result (own.new.items ≡ members_at member operands.now) }
{
    own.clear();
    for operand in operands {
        match operand.get(member) {
            Some(value) => own.push(value.clone()?)?,
            None => return Err(AllocError),
        }
    }
    Ok(())
}

/// A member's node, with room for its own operands. No caller asks for another member.
fn of_member<L: Ledger>(
    alloc: Global,
    primitive: Primitive,
    operands: &[Multi],
    group: &Group,
    member: usize,
    own: &mut Vec<Value>,
    evaluations: &mut Evaluations<L>,
) -> Result<Called, Faulted>
    ensures answers { Answers (λ c. c)
        (answer_at group.now primitive.entry operands.now member) result }
    ensures counts { UnlessMemory (λ _. evaluations.new ≡ evaluations.old + 1)
        (λ _. evaluations.new ≡ evaluations.old + 1) result }
{
    let requests = group.requests();
    if member >= requests.len() {
        return Err(OrMemory::Memory);
    }
    take_operands(own, operands, member)?;
    evaluations.evaluate(alloc, primitive, own.as_slice(), &requests[member])
}

/// Whether a member's value is another one than the first member's.
fn differs(values: &Multi, member: usize) -> bool
    ensures { result
        ≡ not (same_datum (member_value values.now 0) (member_value values.now member)) }
{
    let absent = Value::null();
    let first = values.get(0).unwrap_or(&absent);
    let value = values.get(member).unwrap_or(&absent);
    first.compare(value).is_ne()
}

/// Whether so many members have one value.
pub fn is_shared(values: &Multi, members: usize) -> bool
    ensures { result ≡ is_shared members values.now }
{
    match values.one() {
        Some(_) => true,
        None => are_equal(values, members),
    }
}

/// The same, by looking at each.
fn are_equal(values: &Multi, members: usize) -> bool
    ensures { result ≡ is_shared members values.now }
{
    for member in 0..members {
        if differs(values, member) {
            return false;
        }
    }
    true
}

fn are_shared(operands: &[Multi], members: usize) -> bool
    ensures { result ≡ list_all (is_shared members) operands.now }
{
    operands.iter().all(|operand| is_shared(operand, members))
}

fn asks_request(builtin: Builtin) -> bool
    ensures { result ≡ asks_request builtin }
{
    matches!(
        builtin,
        Builtin::Param | Builtin::Method | Builtin::Path | Builtin::Body
    )
}

fn takes_request(primitive: Primitive) -> bool
    ensures { result ≡ takes_request primitive.entry }
{
    match primitive {
        Primitive::Builtin(builtin) | Primitive::OnStore(builtin, _) => asks_request(builtin),
        _ => false,
    }
}

/// Whether all members have the same operands, and the same request where the node looks at it.
fn agree(primitive: Primitive, operands: &[Multi], group: &Group) -> bool
    ensures agree { result ≡ agree group.now primitive.entry operands.now }
    ensures some { 0 < length group.now }
{
    are_shared(operands, group.requests().len()) && (group.is_alike() || !takes_request(primitive))
}

/// The values of all members, where the first has this one.
fn values<L: Ledger>(
    alloc: Global,
    primitive: Primitive,
    operands: &[Multi],
    group: &Group,
    first: Value,
    own: &mut Vec<Value>,
    evaluations: &mut Evaluations<L>,
) -> Result<Multi, Apart>
    requires { answer_at group.now primitive operands.now 0 ≡ Ok (called.Value first) }
    ensures have { IfOk result (λ m. (i : ℕ) → i < length group.now
        → answer_at group.now primitive.entry operands.now i
        ≡ Ok (called.Value (member_value m i))) }
    ensures counts { OnOk result (evaluations.new + 1 ≡ evaluations.old + length group.now) }
    ensures apart { IsApart (length group.now)
        (answer_at group.now primitive.entry operands.now) result }
{
    let members = group.requests().len();
    let Ok(mut values) = Vec::with_capacity(alloc, members) else {
        drop(first);
        return Err(Apart::Memory);
    };
    values.push(first)?;
    for member in 1..members {
        match of_member(alloc, primitive, operands, group, member, own, evaluations) {
            Ok(Called::Value(value)) => values.push(value)?,
            Ok(Called::Operation(op)) => {
                drop(op);
                drop(values);
                return Err(Apart::Differ);
            }
            Err(OrMemory::Other(_fault)) => {
                drop(values);
                return Err(Apart::Differ);
            }
            Err(OrMemory::Memory) => {
                drop(values);
                return Err(Apart::Memory);
            }
        }
    }
    members_keep_their_values();
    Ok(Multi::of(Values::from_vec(values)?)?)
}

/// The operations of all members, where the first has this one.
fn operations<L: Ledger>(
    alloc: Global,
    primitive: Primitive,
    operands: &[Multi],
    group: &Group,
    first: Op,
    own: &mut Vec<Value>,
    evaluations: &mut Evaluations<L>,
) -> Result<Items<Op>, Apart>
    requires { answer_at group.now primitive operands.now 0 ≡ Ok (called.Operation first) }
    ensures count { IfOk result (λ ops. length ops ≡ length group.now) }
    ensures have { IfOk result (λ ops. (i : ℕ) → i < length group.now
        → answer_at group.now primitive.entry operands.now i
        ≡ Ok (called.Operation (get_or ops i nothing))) }
    ensures counts { OnOk result (evaluations.new + 1 ≡ evaluations.old + length group.now) }
    ensures apart { IsApart (length group.now)
        (answer_at group.now primitive.entry operands.now) result }
{
    let members = group.requests().len();
    let Ok(mut ops) = Vec::with_capacity(alloc, members) else {
        drop(first);
        return Err(Apart::Memory);
    };
    ops.push(first)?;
    for member in 1..members {
        match of_member(alloc, primitive, operands, group, member, own, evaluations) {
            Ok(Called::Operation(op)) => ops.push(op)?,
            Ok(Called::Value(value)) => {
                drop(value);
                drop(ops);
                return Err(Apart::Differ);
            }
            Err(OrMemory::Other(_fault)) => {
                drop(ops);
                return Err(Apart::Differ);
            }
            Err(OrMemory::Memory) => {
                drop(ops);
                return Err(Apart::Memory);
            }
        }
    }
    Ok(Items::from_vec(ops))
}

/// Tells a difference unless all members have this fault, as the first has.
fn faults<L: Ledger>(
    alloc: Global,
    primitive: Primitive,
    operands: &[Multi],
    group: &Group,
    fault: ScriptFault,
    own: &mut Vec<Value>,
    evaluations: &mut Evaluations<L>,
) -> Result<(), Apart>
    requires { answer_at group.now primitive operands.now 0 ≡ Err fault }
    ensures have { OnOk result ((i : ℕ) → i < length group.now
        → answer_at group.now primitive.entry operands.now i ≡ Err fault) }
    ensures counts { OnOk result (evaluations.new + 1 ≡ evaluations.old + length group.now) }
    ensures apart { IsApart (length group.now)
        (answer_at group.now primitive.entry operands.now) result }
{
    let members = group.requests().len();
    for member in 1..members {
        match of_member(alloc, primitive, operands, group, member, own, evaluations) {
            Ok(called) => {
                drop(called);
                return Err(Apart::Differ);
            }
            Err(OrMemory::Memory) => return Err(Apart::Memory),
            Err(OrMemory::Other(other)) => {
                if other != fault {
                    return Err(Apart::Differ);
                }
            }
        }
    }
    Ok(())
}

/// A node of all members, where it is told whether they agree on what it takes.
fn evaluate_so<L: Ledger>(
    alloc: Global,
    primitive: Primitive,
    operands: &[Multi],
    group: &Group,
    agreed: bool,
    may_issue: bool,
    own: &mut Vec<Value>,
    evaluations: &mut Evaluations<L>,
) -> Result<Together, Apart>
    requires { agreed ≡ agree group.now primitive operands.now }
    ensures have { Have (length group.now)
        (answer_at group.now primitive.entry operands.now) result }
    ensures counts { Counts evaluations.old evaluations.new
        (evaluations_if agreed (length group.now)) (length group.now) result }
    ensures issues { Issues may_issue result }
{
    match of_member(alloc, primitive, operands, group, 0, own, evaluations) {
        Err(OrMemory::Memory) => Err(Apart::Memory),
        Ok(Called::Value(value)) => {
            if agreed {
                Ok(Together::Values(Multi::all(value)))
            } else {
                let all = values(alloc, primitive, operands, group, value, own, evaluations)?;
                Ok(Together::Values(all))
            }
        }
        Ok(Called::Operation(op)) => {
            if agreed && !may_issue {
                drop(op);
                return Ok(Together::TooMany);
            }
            let ops = operations(alloc, primitive, operands, group, op, own, evaluations)?;
            if may_issue {
                Ok(Together::Operations(ops))
            } else {
                drop(ops);
                Ok(Together::TooMany)
            }
        }
        Err(OrMemory::Other(fault)) => {
            if agreed {
                Err(Apart::Fault(fault))
            } else {
                faults(alloc, primitive, operands, group, fault, own, evaluations)?;
                Err(Apart::Fault(fault))
            }
        }
    }
}

/// A node of all members: evaluated once where they agree on what it takes, else once for each. One
/// that is an operation is evaluated for each. It is told whether an operation may still be issued.
/// The count of nodes rises by what the step costs.
pub fn evaluate_members<L: Ledger>(
    alloc: Global,
    primitive: Primitive,
    operands: &[Multi],
    group: &Group,
    may_issue: bool,
    evaluations: &mut Evaluations<L>,
) -> Result<Together, Apart>
    ensures have { Have (length group.now)
        (answer_at group.now primitive.entry operands.now) result }
    ensures counts { Counts evaluations.old evaluations.new
        (price (length group.now) (cost_at group.now primitive.entry operands.now))
        (length group.now) result }
    ensures issues { Issues may_issue result }
{
    let agreed = agree(primitive, operands, group);
    let mut own = Vec::with_capacity(alloc, operands.len())?;
    evaluate_so(
        alloc,
        primitive,
        operands,
        group,
        agreed,
        may_issue,
        &mut own,
        evaluations,
    )
}
