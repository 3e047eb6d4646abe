ghost use Rattle.std.specs.Prelude.{◌≡◌, ℕ, ◌∷◌, IfOk};
ghost use Rattle.script_tree.specs.ExpressionView.{expression_of};
ghost use Rattle.script_grammar.specs.Spelling.{spelling};
ghost use Rattle.script_print.specs.Pieces.{infix_spelling, enclosed, members, more_members};
ghost use Rattle.script_print.specs.TreePrints.{Prints};

use crate::printer::Printer;
use crate::query::print_transact;
use script_grammar::words::{infix_word, prefix_word, truth_word};
use script_tokens::word::Word;
use script_tree::syntax::expression::{Expression, ExpressionNode};
use std::alloc::AllocError;

#[cycle(expression)]
pub(crate) fn print_expression(
    printer: &mut Printer,
    expression: &Expression,
) -> Result<(), AllocError>
    ensures { IfOk result (λ _. Prints (spelling expression.now) printer.old printer.new) }
{
    print_node(printer, &expression.node)
}

#[cycle(expression)]
fn print_node(printer: &mut Printer, node: &ExpressionNode) -> Result<(), AllocError>
    ensures { IfOk result
        (λ _. (at : ℕ) → Prints (spelling (expression_of at node.now)) printer.old printer.new) }
{
    match node {
        ExpressionNode::Number(value) => printer.number(*value),
        ExpressionNode::Text(text) => printer.text(text.as_bytes()),
        ExpressionNode::Bool(holds) => printer.word(truth_word(*holds)),
        ExpressionNode::Null => printer.word(Word::Null),
        ExpressionNode::Bracket(inner) => {
            print_enclosed(printer, Word::Open, inner, Word::Close)
        }
        ExpressionNode::Variable(name) => printer.name(name.as_bytes()),
        ExpressionNode::Call(name, arguments) => {
            printer.name(name.as_bytes())?;
            print_list(printer, Word::Open, arguments.as_slice(), Word::Close)
        }
        ExpressionNode::List(members) => {
            print_list(
                printer,
                Word::SquareOpen,
                members.as_slice(),
                Word::SquareClose,
            )
        }
        ExpressionNode::Transact(queries) => print_transact(printer, queries.as_slice()),
        ExpressionNode::Unary(operator, operand) => {
            printer.word(prefix_word(*operator))?;
            print_expression(printer, operand)
        }
        ExpressionNode::Binary(operator, left, right) => {
            print_infix(printer, left, infix_word(*operator), right)
        }
        ExpressionNode::And(left, right) => print_infix(printer, left, Word::And, right),
        ExpressionNode::Or(left, right) => print_infix(printer, left, Word::Or, right),
        ExpressionNode::Index(whole, place) => {
            print_expression(printer, whole)?;
            print_enclosed(printer, Word::SquareOpen, place, Word::SquareClose)
        }
    }
}

/// An operator or another word between its operands.
#[cycle(expression)]
fn print_infix(
    printer: &mut Printer,
    left: &Expression,
    sign: Word,
    right: &Expression,
) -> Result<(), AllocError>
    ensures { IfOk result
        (λ _. Prints (infix_spelling left.now sign right.now) printer.old printer.new) }
{
    print_expression(printer, left)?;
    printer.word(sign)?;
    print_expression(printer, right)
}

/// An expression between brackets.
#[cycle(expression)]
fn print_enclosed(
    printer: &mut Printer,
    opening: Word,
    inner: &Expression,
    closing: Word,
) -> Result<(), AllocError>
    ensures { IfOk result
        (λ _. Prints (enclosed opening (spelling inner.now) closing) printer.old printer.new) }
{
    printer.word(opening)?;
    print_expression(printer, inner)?;
    printer.word(closing)
}

/// Expressions between brackets, with commas between them.
#[cycle(expression)]
pub(crate) fn print_list(
    printer: &mut Printer,
    opening: Word,
    list: &[Expression],
    closing: Word,
) -> Result<(), AllocError>
    ensures { IfOk result
        (λ _. Prints (enclosed opening (members list.now) closing) printer.old printer.new) }
{
    printer.word(opening)?;
    print_members(printer, list)?;
    printer.word(closing)
}

#[cycle(expression)]
fn print_members(printer: &mut Printer, list: &[Expression]) -> Result<(), AllocError>
    ensures { IfOk result (λ _. Prints (members list.now) printer.old printer.new) }
{
    match list {
        [] => Ok(()),
        [first, others @ ..] => {
            print_expression(printer, first)?;
            print_more_members(printer, others)
        }
    }
}

#[cycle(expression)]
fn print_more_members(printer: &mut Printer, others: &[Expression]) -> Result<(), AllocError>
    ensures { IfOk result (λ _. Prints (more_members others.now) printer.old printer.new) }
{
    for member in others {
        printer.word(Word::Comma)?;
        print_expression(printer, member)?;
    }
    Ok(())
}
