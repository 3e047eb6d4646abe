ghost use Rattle.std.specs.Prelude.{◌≡◌, ℕ, IfOk};
ghost use Rattle.script_tree.specs.ExpressionView.{query_of};
ghost use Rattle.script_grammar.specs.Spelling.{query_spelling};
ghost use Rattle.script_print.specs.Pieces.{queries, rows, rows_from, transaction};
ghost use Rattle.script_print.specs.Pieces.{condition, conditions, more_conditions};
ghost use Rattle.script_print.specs.Pieces.{assignment, assignments, more_assignments};
ghost use Rattle.script_print.specs.TreePrints.{Prints};

use crate::expression::{print_expression, print_list};
use crate::name::{print_name, print_names};
use crate::printer::Printer;
use script_grammar::words::comparison_word;
use script_tokens::word::Word;
use script_tree::syntax::expression::{Assignment, Condition, Query, QueryNode};
use script_tree::syntax::name::Name;
use std::alloc::AllocError;

#[cycle(expression)]
pub(crate) fn print_transact(printer: &mut Printer, list: &[Query]) -> Result<(), AllocError>
    ensures { IfOk result (λ _. Prints (transaction list.now) printer.old printer.new) }
{
    printer.word(Word::Transact)?;
    printer.word(Word::BraceOpen)?;
    print_queries(printer, list)?;
    printer.word(Word::BraceClose)
}

#[cycle(expression)]
fn print_queries(printer: &mut Printer, list: &[Query]) -> Result<(), AllocError>
    ensures { IfOk result (λ _. Prints (queries list.now) printer.old printer.new) }
{
    for query in list {
        print_query(printer, query)?;
    }
    Ok(())
}

#[cycle(expression)]
fn print_query(printer: &mut Printer, query: &Query) -> Result<(), AllocError>
    ensures { IfOk result (λ _. Prints (query_spelling query.now) printer.old printer.new) }
{
    print_query_node(printer, &query.node)
}

#[cycle(expression)]
fn print_query_node(printer: &mut Printer, node: &QueryNode) -> Result<(), AllocError>
    ensures { IfOk result
        (λ _. (at : ℕ) → Prints (query_spelling (query_of at node.now)) printer.old printer.new) }
{
    match node {
        QueryNode::Insert(table, values) => {
            printer.word(Word::Insert)?;
            print_name(printer, table)?;
            print_list(printer, Word::Open, values.as_slice(), Word::Close)?;
            printer.word(Word::Semicolon)
        }
        QueryNode::Select(columns, table, conditions) => {
            printer.word(Word::Select)?;
            print_names(printer, columns.as_slice())?;
            print_from(printer, table, conditions.as_slice())
        }
        QueryNode::Update(table, assignments, conditions) => {
            printer.word(Word::Update)?;
            print_name(printer, table)?;
            printer.word(Word::Set)?;
            print_assignments(printer, assignments.as_slice())?;
            print_rows(printer, conditions.as_slice())
        }
        QueryNode::Delete(table, conditions) => {
            printer.word(Word::Delete)?;
            print_name(printer, table)?;
            print_rows(printer, conditions.as_slice())
        }
        QueryNode::Expect(count, table, conditions) => {
            printer.word(Word::Expect)?;
            print_expression(printer, count)?;
            print_from(printer, table, conditions.as_slice())
        }
    }
}

/// A table and the tests of its rows, up to the end of a statement.
#[cycle(expression)]
fn print_from(printer: &mut Printer, table: &Name, tests: &[Condition]) -> Result<(), AllocError>
    ensures { IfOk result (λ _. Prints (rows_from table.now tests.now) printer.old printer.new) }
{
    printer.word(Word::From)?;
    print_name(printer, table)?;
    print_rows(printer, tests)
}

/// The tests of rows, up to the end of a statement.
#[cycle(expression)]
fn print_rows(printer: &mut Printer, tests: &[Condition]) -> Result<(), AllocError>
    ensures { IfOk result (λ _. Prints (rows tests.now) printer.old printer.new) }
{
    print_where(printer, tests)?;
    printer.word(Word::Semicolon)
}

/// No tests, no `where`.
#[cycle(expression)]
fn print_where(printer: &mut Printer, tests: &[Condition]) -> Result<(), AllocError>
    ensures { IfOk result (λ _. Prints (conditions tests.now) printer.old printer.new) }
{
    match tests {
        [] => Ok(()),
        [first, others @ ..] => {
            print_condition(printer, Word::Where, first)?;
            print_more_conditions(printer, others)
        }
    }
}

#[cycle(expression)]
fn print_more_conditions(printer: &mut Printer, others: &[Condition]) -> Result<(), AllocError>
    ensures { IfOk result (λ _. Prints (more_conditions others.now) printer.old printer.new) }
{
    for condition in others {
        print_condition(printer, Word::And, condition)?;
    }
    Ok(())
}

/// A test behind a keyword.
#[cycle(expression)]
fn print_condition(printer: &mut Printer, keyword: Word, test: &Condition) -> Result<(), AllocError>
    ensures { IfOk result (λ _. Prints (condition keyword test.now) printer.old printer.new) }
{
    printer.word(keyword)?;
    print_name(printer, &test.column)?;
    printer.word(comparison_word(test.comparison))?;
    print_expression(printer, &test.value)
}

#[cycle(expression)]
fn print_assignments(printer: &mut Printer, list: &[Assignment]) -> Result<(), AllocError>
    ensures { IfOk result (λ _. Prints (assignments list.now) printer.old printer.new) }
{
    match list {
        [] => Ok(()),
        [first, others @ ..] => {
            print_assignment(printer, first)?;
            print_more_assignments(printer, others)
        }
    }
}

#[cycle(expression)]
fn print_more_assignments(printer: &mut Printer, others: &[Assignment]) -> Result<(), AllocError>
    ensures { IfOk result (λ _. Prints (more_assignments others.now) printer.old printer.new) }
{
    for assignment in others {
        printer.word(Word::Comma)?;
        print_assignment(printer, assignment)?;
    }
    Ok(())
}

#[cycle(expression)]
fn print_assignment(printer: &mut Printer, assigned: &Assignment) -> Result<(), AllocError>
    ensures { IfOk result (λ _. Prints (assignment assigned.now) printer.old printer.new) }
{
    print_name(printer, &assigned.column)?;
    printer.word(Word::Becomes)?;
    print_expression(printer, &assigned.value)
}
