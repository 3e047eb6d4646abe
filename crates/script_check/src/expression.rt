#![tactic(auto, using(crate::proofs::Least::lower_append, crate::proofs::Least::lower_none))]

ghost use Rattle.std.specs.Prelude.{◌≡◌};
ghost use Rattle.script_check.specs.Finds.{Finds};
ghost use Rattle.script_check.specs.Members.{in_node, in_call, in_arguments, in_expressions};
ghost use Rattle.script_check.specs.Validity.{called_faults, names_store};
ghost use Rattle.script_check.specs.Validity.{store_faults, expression_faults};

use crate::declared::Declared;
use crate::fault::CheckFaultKind;
use crate::found::Found;
use crate::query::{check_queries, has_queries};
use crate::scope::Scope;
use script_tree::limits::MOST_LITERAL_BYTES;
use script_tree::syntax::builtin::Builtin;
use script_tree::syntax::expression::{Expression, ExpressionNode, Expressions};
use script_tree::text::Text;

/// How many arguments a function is called with: a built-in one, else one of the program.
fn check_count(
    index: &Declared,
    at: usize,
    name: &[u8],
    builtin: Option<Builtin>,
    count: usize,
    found: &mut Found,
)
    ensures { Finds (called_faults index.now at count builtin name.now) found.old found.new }
{
    match builtin {
        Some(builtin) => found.unless(count == builtin.arity(), at, CheckFaultKind::WrongCount),
        None => match index.parameters(name) {
            Some(parameters) => found.unless(count == parameters, at, CheckFaultKind::WrongCount),
            None => found.note(at, CheckFaultKind::Undeclared),
        },
    }
}

/// Whether the first argument is to be the bare name of a store.
fn takes_store(builtin: Option<Builtin>) -> bool
    ensures { result ≡ names_store builtin }
{
    builtin.is_some_and(|builtin| builtin.takes_store())
}

/// An argument that is to be the bare name of a store.
fn check_store(index: &Declared, argument: &Expression, found: &mut Found)
    ensures { Finds (store_faults index.now argument.now) found.old found.new }
{
    match &argument.node {
        ExpressionNode::Variable(name) => {
            let is_there = index.has_store(name.as_bytes());
            found.unless(is_there, argument.at, CheckFaultKind::Unknown);
        }
        _ => found.note(argument.at, CheckFaultKind::Unknown),
    }
}

/// An expression, where these variables are known.
#[cycle(expression)]
pub(crate) fn check_expression(
    index: &Declared,
    scope: &Scope,
    expression: &Expression,
    found: &mut Found,
)
    ensures { Finds (expression_faults index.now scope.now expression.now) found.old found.new }
{
    check_node(index, scope, expression.at, &expression.node, found);
}

#[cycle(expression)]
fn check_node(index: &Declared, scope: &Scope, at: usize, node: &ExpressionNode, found: &mut Found)
    ensures { Finds (in_node index.now scope.now at node.now) found.old found.new }
{
    match node {
        ExpressionNode::Number(_) | ExpressionNode::Bool(_) | ExpressionNode::Null => {}
        ExpressionNode::Text(text) => {
            found.unless(
                text.len() <= MOST_LITERAL_BYTES,
                at,
                CheckFaultKind::WrongCount,
            );
        }
        ExpressionNode::Bracket(inner) => check_expression(index, scope, inner, found),
        ExpressionNode::Variable(name) => {
            let is_known = scope.knows(name.as_bytes());
            found.unless(is_known, at, CheckFaultKind::Undeclared);
        }
        ExpressionNode::Call(name, arguments) => {
            check_call(index, scope, at, name, arguments, found);
        }
        ExpressionNode::List(members) => {
            check_expressions(index, scope, members.as_slice(), found);
        }
        ExpressionNode::Transact(queries) => {
            found.unless(
                has_queries(queries.as_slice()),
                at,
                CheckFaultKind::WrongCount,
            );
            check_queries(index, scope, queries.as_slice(), found);
        }
        ExpressionNode::Unary(_, operand) => check_expression(index, scope, operand, found),
        ExpressionNode::Binary(_, left, right) => {
            check_expression(index, scope, left, found);
            check_expression(index, scope, right, found);
        }
        ExpressionNode::And(left, right) => {
            check_expression(index, scope, left, found);
            check_expression(index, scope, right, found);
        }
        ExpressionNode::Or(left, right) => {
            check_expression(index, scope, left, found);
            check_expression(index, scope, right, found);
        }
        ExpressionNode::Index(whole, place) => {
            check_expression(index, scope, whole, found);
            check_expression(index, scope, place, found);
        }
    }
}

#[cycle(expression)]
fn check_call(
    index: &Declared,
    scope: &Scope,
    at: usize,
    name: &Text,
    arguments: &Expressions,
    found: &mut Found,
)
    ensures { Finds (in_call index.now scope.now at name.now arguments.now) found.old found.new }
{
    let builtin = Builtin::named(index.version(), name.as_bytes());
    check_count(index, at, name.as_bytes(), builtin, arguments.len(), found);
    check_arguments(index, scope, builtin, arguments.as_slice(), found);
}

#[cycle(expression)]
fn check_arguments(
    index: &Declared,
    scope: &Scope,
    builtin: Option<Builtin>,
    arguments: &[Expression],
    found: &mut Found,
)
    ensures { Finds (in_arguments index.now scope.now builtin arguments.now) found.old found.new }
{
    match arguments {
        [store, others @ ..] if takes_store(builtin) => {
            check_store(index, store, found);
            check_expressions(index, scope, others, found);
        }
        _ => check_expressions(index, scope, arguments, found),
    }
}

/// Expressions one after another.
#[cycle(expression)]
pub(crate) fn check_expressions(
    index: &Declared,
    scope: &Scope,
    expressions: &[Expression],
    found: &mut Found,
)
    ensures { Finds (in_expressions index.now scope.now expressions.now) found.old found.new }
{
    for expression in expressions {
        check_expression(index, scope, expression, found);
    }
}
