#![tactic(auto, using(crate::proofs::Least::lower_append, crate::proofs::Least::lower_none))]

ghost use Rattle.std.specs.Prelude.{◌≡◌, OnOk};
ghost use Rattle.script_tree.specs.StatementView.{statement_of};
ghost use Rattle.script_check.specs.Finds.{Notes};
ghost use Rattle.script_check.specs.Members.{in_statement, in_kind, in_else};
ghost use Rattle.script_check.specs.Validity.{block_faults, known_after};

use crate::declared::Declared;
use crate::expression::check_expression;
use crate::fault::CheckFaultKind;
use crate::found::Found;
use crate::scope::Scope;
use script_tree::syntax::statement::{Else, Statement, StatementNode};
use std::alloc::AllocError;

/// The statements of a block. What they declare is known up to its end.
#[cycle(statement)]
pub(crate) fn check_block<'a>(
    index: &Declared,
    scope: &mut Scope<'a>,
    block: &'a [Statement],
    found: &mut Found,
) -> Result<(), AllocError>
    ensures known { OnOk result (scope.new ≡ scope.old) }
    ensures ok { Notes result (block_faults index.now scope.old block.now) found.old found.new }
{
    let known = scope.len();
    for statement in block {
        check_statement(index, scope, statement, found)?;
    }
    scope.leave(known);
    Ok(())
}

#[cycle(statement)]
fn check_statement<'a>(
    index: &Declared,
    scope: &mut Scope<'a>,
    statement: &'a Statement,
    found: &mut Found,
) -> Result<(), AllocError>
    ensures known { OnOk result (scope.new ≡ known_after scope.old statement.now) }
    ensures ok { Notes result (in_statement index.now scope.old statement.now) found.old found.new }
{
    check_statement_node(index, scope, statement.at, &statement.node, found)
}

#[cycle(statement)]
fn check_statement_node<'a>(
    index: &Declared,
    scope: &mut Scope<'a>,
    at: usize,
    node: &'a StatementNode,
    found: &mut Found,
) -> Result<(), AllocError>
    ensures known { OnOk result (scope.new ≡ known_after scope.old (statement_of at node.now)) }
    ensures ok { Notes result (in_kind index.now scope.old at node.now) found.old found.new }
{
    match node {
        StatementNode::Let(name, value) => {
            check_expression(index, scope, value, found);
            scope.declare(name, found)?;
            Ok(())
        }
        StatementNode::Set(name, value) => {
            let is_known = scope.knows(name.text.as_bytes());
            found.unless(is_known, name.at, CheckFaultKind::Undeclared);
            check_expression(index, scope, value, found);
            Ok(())
        }
        StatementNode::If(condition, body, otherwise) => {
            check_expression(index, scope, condition, found);
            check_block(index, scope, body.as_slice(), found)?;
            check_else(index, scope, otherwise, found)
        }
        StatementNode::While(condition, body) => {
            check_expression(index, scope, condition, found);
            check_block(index, scope, body.as_slice(), found)
        }
        StatementNode::For(name, list, body) => {
            check_expression(index, scope, list, found);
            let outside = scope.len();
            scope.declare(name, found)?;
            check_block(index, scope, body.as_slice(), found)?;
            scope.leave(outside);
            Ok(())
        }
        StatementNode::Echo(value)
        | StatementNode::Status(value)
        | StatementNode::Return(value)
        | StatementNode::Do(value) => {
            check_expression(index, scope, value, found);
            Ok(())
        }
    }
}

#[cycle(statement)]
fn check_else<'a>(
    index: &Declared,
    scope: &mut Scope<'a>,
    otherwise: &'a Else,
    found: &mut Found,
) -> Result<(), AllocError>
    ensures known { OnOk result (scope.new ≡ scope.old) }
    ensures ok { Notes result (in_else index.now scope.old otherwise.now) found.old found.new }
{
    match otherwise {
        Else::None => Ok(()),
        Else::Block(block) => check_block(index, scope, block.as_slice(), found),
    }
}
