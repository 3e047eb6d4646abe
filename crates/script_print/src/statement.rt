ghost use Rattle.std.specs.Prelude.{◌≡◌, ℕ, IfOk};
ghost use Rattle.script_tree.specs.StatementView.{statement_of, else_of};
ghost use Rattle.script_grammar.specs.Spelling.{statement_spelling, else_spelling};
ghost use Rattle.script_print.specs.Pieces.{block, setting, simple_statement, statements};
ghost use Rattle.script_print.specs.TreePrints.{Prints};

use crate::expression::print_expression;
use crate::name::print_name;
use crate::printer::Printer;
use script_tokens::word::Word;
use script_tree::syntax::expression::Expression;
use script_tree::syntax::name::Name;
use script_tree::syntax::statement::{Else, Statement, StatementNode};
use std::alloc::AllocError;

#[cycle(statement)]
fn print_statement(printer: &mut Printer, statement: &Statement) -> Result<(), AllocError>
    ensures { IfOk result (λ _. Prints (statement_spelling statement.now) printer.old printer.new) }
{
    print_statement_node(printer, &statement.node)
}

#[cycle(statement)]
fn print_statement_node(printer: &mut Printer, node: &StatementNode) -> Result<(), AllocError>
    ensures { IfOk result
        (λ _. (at : ℕ) → Prints (statement_spelling (statement_of at node.now))
        printer.old printer.new) }
{
    match node {
        StatementNode::Let(name, value) => print_setting(printer, Word::Let, name, value),
        StatementNode::Set(name, value) => print_setting(printer, Word::Set, name, value),
        StatementNode::If(condition, body, other) => {
            printer.word(Word::If)?;
            print_expression(printer, condition)?;
            print_block(printer, body.as_slice())?;
            print_else(printer, other)?;
            Ok(())
        }
        StatementNode::While(condition, body) => {
            printer.word(Word::While)?;
            print_expression(printer, condition)?;
            print_block(printer, body.as_slice())
        }
        StatementNode::For(name, list, body) => {
            printer.word(Word::For)?;
            print_name(printer, name)?;
            printer.word(Word::In)?;
            print_expression(printer, list)?;
            print_block(printer, body.as_slice())
        }
        StatementNode::Echo(value) => print_simple(printer, Word::Echo, value),
        StatementNode::Status(value) => print_simple(printer, Word::Status, value),
        StatementNode::Return(value) => print_simple(printer, Word::Return, value),
        StatementNode::Do(value) => print_simple(printer, Word::Do, value),
    }
}

#[cycle(statement)]
fn print_else(printer: &mut Printer, other: &Else) -> Result<(), AllocError>
    ensures { IfOk result
        (λ _. Prints (else_spelling (else_of other.now)) printer.old printer.new) }
{
    match other {
        Else::None => Ok(()),
        Else::Block(body) => {
            printer.word(Word::Else)?;
            print_block(printer, body.as_slice())
        }
    }
}

/// Statements between braces.
#[cycle(statement)]
pub(crate) fn print_block(printer: &mut Printer, body: &[Statement]) -> Result<(), AllocError>
    ensures { IfOk result (λ _. Prints (block body.now) printer.old printer.new) }
{
    printer.word(Word::BraceOpen)?;
    print_statements(printer, body)?;
    printer.word(Word::BraceClose)
}

#[cycle(statement)]
fn print_statements(printer: &mut Printer, body: &[Statement]) -> Result<(), AllocError>
    ensures { IfOk result (λ _. Prints (statements body.now) printer.old printer.new) }
{
    for statement in body {
        print_statement(printer, statement)?;
    }
    Ok(())
}

/// A `let` or a `set`.
fn print_setting(
    printer: &mut Printer,
    keyword: Word,
    name: &Name,
    value: &Expression,
) -> Result<(), AllocError>
    ensures { IfOk result
        (λ _. Prints (setting keyword name.now value.now) printer.old printer.new) }
{
    printer.word(keyword)?;
    print_name(printer, name)?;
    printer.word(Word::Becomes)?;
    print_expression(printer, value)?;
    printer.word(Word::Semicolon)
}

/// A statement of a keyword and an expression.
fn print_simple(printer: &mut Printer, keyword: Word, value: &Expression) -> Result<(), AllocError>
    ensures { IfOk result
        (λ _. Prints (simple_statement keyword value.now) printer.old printer.new) }
{
    printer.word(keyword)?;
    print_expression(printer, value)?;
    printer.word(Word::Semicolon)
}
