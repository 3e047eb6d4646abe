ghost use Rattle.std.specs.Prelude.{◌≡◌, ◌<◌, ◌≤◌, ◌∷◌, [], length, map, IfOk, OnOk};
ghost use Rattle.script_grammar.specs.Machine.{word_comparison, more_tests, a_comparison, a_query, filtered, begin_query};
ghost use Rattle.script_tree.specs.ExpressionView.{condition_of};
ghost use Rattle.script_tree.specs.Syntax.{expect};
ghost use Rattle.script_tree.specs.SyntaxLists.{conditions_of};
ghost use Rattle.script_syntax.specs.Parses.{Parses, Begins, word_token, comparison_at, expression_value, comparison_value, tests_value, sets_value, condition_value, assignment_value, query_value, names_value, queries_value, selection_value};
ghost use Rattle.script_syntax.specs.Behind.{all_sets, all_tests, behind_delete, behind_expect, behind_insert, behind_select, behind_transact, behind_update, one_set, one_test, selection};

use crate::expression::{EXPRESSION, SUM, closed, operand, some_arguments};
use crate::feed::{Stop, any_word, name, some_names, take, unexpected, ungrammatical};
use script_tokens::scan::Tokens;
use script_tokens::shape::Shape;
use script_tokens::word::Word;
use script_tree::comparison::Comparison;
use script_tree::syntax::expression::{
    Assignment, Assignments, Condition, Conditions, Expression, ExpressionNode, Expressions,
    Queries, Query, QueryNode,
};
use script_tree::syntax::name::{Name, Names};
use std::alloc::{AllocError, Global};

/// The statements of a transaction.
#[cycle(expression)]
pub fn transact(alloc: Global, tokens: &mut Tokens<'_>, at: usize) -> Result<Expression, Stop>
    ensures gives { let symbols = behind_transact at in
        Parses expression_value symbols (queries_value []) result tokens.old tokens.new }
    ensures shorter { OnOk result (length tokens.new.tokens < length tokens.old.tokens) }
{
    take(tokens, Word::BraceOpen)?;
    let mut queries = Queries::new(alloc);
    queries.push(query(alloc, tokens)?)?;
    while !tokens.stands(Word::BraceClose) {
        queries.push(query(alloc, tokens)?)?;
    }
    tokens.skip();
    let node = ExpressionNode::Transact(queries);
    Ok(Expression { at, node })
}

#[cycle(expression)]
fn query(alloc: Global, tokens: &mut Tokens<'_>) -> Result<Query, Stop>
    ensures gives { Parses query_value (a_query ∷ []) [] result tokens.old tokens.new }
    ensures shorter { OnOk result (length tokens.new.tokens < length tokens.old.tokens) }
{
    match any_word(tokens) {
        Some((at, word)) => query_of(alloc, tokens, at, word),
        None => Err(unexpected(tokens)),
    }
}

/// A statement that begins with this word.
#[cycle(expression)]
fn query_of(alloc: Global, tokens: &mut Tokens<'_>, at: usize, word: Word) -> Result<Query, Stop>
    ensures gives { let token = word_token at word in
        Begins query_value token (begin_query at word) result tokens.old tokens.new }
    ensures shorter { OnOk result (length tokens.new.tokens ≤ length tokens.old.tokens) }
{
    match word {
        Word::Insert => insert(alloc, tokens, at),
        Word::Select => select(alloc, tokens, at),
        Word::Update => update(alloc, tokens, at),
        Word::Delete => delete(alloc, tokens, at),
        Word::Expect => expect(alloc, tokens, at),
        _ => Err(ungrammatical(at)),
    }
}

#[cycle(expression)]
fn insert(alloc: Global, tokens: &mut Tokens<'_>, at: usize) -> Result<Query, Stop>
    ensures gives { Parses query_value (behind_insert at) [] result tokens.old tokens.new }
    ensures shorter { OnOk result (length tokens.new.tokens < length tokens.old.tokens) }
{
    let table = name(alloc, tokens)?;
    take(tokens, Word::Open)?;
    let row = some_arguments(alloc, tokens, Expressions::new(alloc), Word::Close)?;
    take(tokens, Word::Semicolon)?;
    let node = QueryNode::Insert(table, row);
    Ok(Query { at, node })
}

#[cycle(expression)]
fn select(alloc: Global, tokens: &mut Tokens<'_>, at: usize) -> Result<Query, Stop>
    ensures gives { let symbols = behind_select at in
        Parses query_value symbols (names_value []) result tokens.old tokens.new }
    ensures shorter { OnOk result (length tokens.new.tokens < length tokens.old.tokens) }
{
    let columns = some_names(alloc, tokens, Names::new(alloc), Word::From)?;
    let (table, tests) = selection(alloc, tokens)?;
    let node = QueryNode::Select(columns, table, tests);
    Ok(Query { at, node })
}

#[cycle(expression)]
fn update(alloc: Global, tokens: &mut Tokens<'_>, at: usize) -> Result<Query, Stop>
    ensures gives { Parses query_value (behind_update at) [] result tokens.old tokens.new }
    ensures shorter { OnOk result (length tokens.new.tokens < length tokens.old.tokens) }
{
    let table = name(alloc, tokens)?;
    take(tokens, Word::Set)?;
    let sets = assignments(alloc, tokens)?;
    let tests = filter(alloc, tokens)?;
    let node = QueryNode::Update(table, sets, tests);
    Ok(Query { at, node })
}

#[cycle(expression)]
fn delete(alloc: Global, tokens: &mut Tokens<'_>, at: usize) -> Result<Query, Stop>
    ensures gives { Parses query_value (behind_delete at) [] result tokens.old tokens.new }
    ensures shorter { OnOk result (length tokens.new.tokens < length tokens.old.tokens) }
{
    let (table, tests) = selection(alloc, tokens)?;
    let node = QueryNode::Delete(table, tests);
    Ok(Query { at, node })
}

#[cycle(expression)]
fn expect(alloc: Global, tokens: &mut Tokens<'_>, at: usize) -> Result<Query, Stop>
    ensures gives { Parses query_value (behind_expect at) [] result tokens.old tokens.new }
    ensures shorter { OnOk result (length tokens.new.tokens < length tokens.old.tokens) }
{
    let count = closed(alloc, tokens, Word::From)?;
    match selection(alloc, tokens) {
        Ok((table, tests)) => Ok(expected(alloc, at, count, table, tests)?),
        Err(stop) => {
            drop(count);
            Err(stop)
        }
    }
}

/// The statement that expects so many rows.
fn expected(
    alloc: Global,
    at: usize,
    count: Expression,
    table: Name,
    tests: Conditions,
) -> Result<Query, AllocError>
    ensures { let filter = conditions_of (map condition_of tests) in
        IfOk result (λ q. q ≡ expect at count table filter) }
{
    let count = Box::new(alloc, count)?;
    let node = QueryNode::Expect(count, table, tests);
    Ok(Query { at, node })
}

/// The table of a statement, its tests, if it has some, and the semicolon at its end.
#[cycle(expression)]
fn selection(alloc: Global, tokens: &mut Tokens<'_>) -> Result<(Name, Conditions), Stop>
    ensures gives { Parses selection_value selection [] result tokens.old tokens.new }
    ensures shorter { OnOk result (length tokens.new.tokens < length tokens.old.tokens) }
{
    let table = name(alloc, tokens)?;
    let tests = filter(alloc, tokens)?;
    Ok((table, tests))
}

/// The tests of a statement, if it has some, and the semicolon at its end.
#[cycle(expression)]
fn filter(alloc: Global, tokens: &mut Tokens<'_>) -> Result<Conditions, Stop>
    ensures gives { Parses tests_value (filtered []) [] result tokens.old tokens.new }
    ensures shorter { OnOk result (length tokens.new.tokens < length tokens.old.tokens) }
{
    let tests = tests(alloc, tokens)?;
    take(tokens, Word::Semicolon)?;
    Ok(tests)
}

#[cycle(expression)]
fn tests(alloc: Global, tokens: &mut Tokens<'_>) -> Result<Conditions, Stop>
    ensures gives { Parses tests_value all_tests [] result tokens.old tokens.new }
    ensures shorter { OnOk result (length tokens.new.tokens ≤ length tokens.old.tokens) }
{
    let mut tests = Conditions::new(alloc);
    if !tokens.stands(Word::Where) {
        return Ok(tests);
    }
    tokens.skip();
    tests.push(test(alloc, tokens)?)?;
    more_tests(alloc, tokens, tests)
}

#[cycle(expression)]
fn more_tests(alloc: Global, tokens: &mut Tokens<'_>, tests: Conditions) -> Result<Conditions, Stop>
    ensures gives { let symbols = more_tests ∷ [] in
        Parses tests_value symbols (tests_value tests) result tokens.old tokens.new }
    ensures shorter { OnOk result (length tokens.new.tokens ≤ length tokens.old.tokens) }
{
    let mut tests = tests;
    while tokens.stands(Word::And) {
        tokens.skip();
        tests.push(test(alloc, tokens)?)?;
    }
    Ok(tests)
}

#[cycle(expression)]
fn test(alloc: Global, tokens: &mut Tokens<'_>) -> Result<Condition, Stop>
    ensures gives { Parses condition_value one_test [] result tokens.old tokens.new }
    ensures shorter { OnOk result (length tokens.new.tokens < length tokens.old.tokens) }
{
    let column = name(alloc, tokens)?;
    let comparison = comparison(tokens)?;
    let value = operand(alloc, tokens, SUM)?;
    Ok(Condition {
        column,
        comparison,
        value,
    })
}

/// The assignments of an update.
#[cycle(expression)]
fn assignments(alloc: Global, tokens: &mut Tokens<'_>) -> Result<Assignments, Stop>
    ensures gives { Parses sets_value all_sets [] result tokens.old tokens.new }
    ensures shorter { OnOk result (length tokens.new.tokens < length tokens.old.tokens) }
{
    let mut sets = Assignments::new(alloc);
    sets.push(assignment(alloc, tokens)?)?;
    while tokens.stands(Word::Comma) {
        tokens.skip();
        sets.push(assignment(alloc, tokens)?)?;
    }
    Ok(sets)
}

#[cycle(expression)]
fn assignment(alloc: Global, tokens: &mut Tokens<'_>) -> Result<Assignment, Stop>
    ensures gives { Parses assignment_value one_set [] result tokens.old tokens.new }
    ensures shorter { OnOk result (length tokens.new.tokens < length tokens.old.tokens) }
{
    let column = name(alloc, tokens)?;
    take(tokens, Word::Becomes)?;
    let value = operand(alloc, tokens, EXPRESSION)?;
    Ok(Assignment { column, value })
}

fn comparison_of(word: Word) -> Option<Comparison>
    ensures { result ≡ word_comparison word }
{
    match word {
        Word::Equal => Some(Comparison::Equal),
        Word::Unequal => Some(Comparison::Unequal),
        Word::Less => Some(Comparison::Less),
        Word::AtMost => Some(Comparison::AtMost),
        Word::Greater => Some(Comparison::Greater),
        Word::AtLeast => Some(Comparison::AtLeast),
        _ => None,
    }
}

/// The comparison that stands first.
fn comparison_at(tokens: &Tokens<'_>) -> Option<Comparison>
    ensures { result ≡ comparison_at tokens.now.tokens }
{
    match tokens.peek() {
        Some(Shape::Word(word)) => comparison_of(word),
        _ => None,
    }
}

/// Takes a comparison.
fn comparison(tokens: &mut Tokens<'_>) -> Result<Comparison, Stop>
    ensures gives { Parses comparison_value (a_comparison ∷ []) [] result tokens.old tokens.new }
    ensures shorter { OnOk result (length tokens.new.tokens < length tokens.old.tokens) }
{
    match comparison_at(tokens) {
        Some(comparison) => {
            tokens.skip();
            Ok(comparison)
        }
        None => Err(unexpected(tokens)),
    }
}
