ghost use Rattle.std.specs.Prelude.{◌≡◌, ◌<◌, ◌≤◌, ◌∷◌, [], length, OnOk};
ghost use Rattle.script_grammar.specs.Machine.{a_statement, else_part, block, begin_statement};
ghost use Rattle.script_syntax.specs.Parses.{Parses, Begins, word_token, expression_value, binding_value, headed_value, statement_value, statements_value, else_value};
ghost use Rattle.script_syntax.specs.Behind.{behind_do, behind_echo, behind_for, behind_if, behind_let, behind_return, behind_set, behind_status, behind_while, binding, ended, headed};

use crate::expression::{EXPRESSION, closed, operand};
use crate::feed::{Stop, any_word, name, short_list, take, unexpected, ungrammatical};
use script_tokens::scan::Tokens;
use script_tokens::word::Word;
use script_tree::syntax::expression::Expression;
use script_tree::syntax::name::Name;
use script_tree::syntax::statement::{Block, Else, Statement, StatementNode};
use std::alloc::Global;

/// An expression and the semicolon behind it.
fn ended(alloc: Global, tokens: &mut Tokens<'_>) -> Result<Expression, Stop>
    ensures gives { Parses expression_value ended [] result tokens.old tokens.new }
    ensures shorter { OnOk result (length tokens.new.tokens < length tokens.old.tokens) }
{
    closed(alloc, tokens, Word::Semicolon)
}

/// A name and the value that is bound to it.
fn binding(alloc: Global, tokens: &mut Tokens<'_>) -> Result<(Name, Expression), Stop>
    ensures gives { Parses binding_value binding [] result tokens.old tokens.new }
    ensures shorter { OnOk result (length tokens.new.tokens < length tokens.old.tokens) }
{
    let name = name(alloc, tokens)?;
    take(tokens, Word::Becomes)?;
    let value = ended(alloc, tokens)?;
    Ok((name, value))
}

/// The statements between two braces.
#[cycle(statement)]
pub fn block(alloc: Global, tokens: &mut Tokens<'_>) -> Result<Block, Stop>
    ensures gives { Parses statements_value (block []) [] result tokens.old tokens.new }
    ensures shorter { OnOk result (length tokens.new.tokens < length tokens.old.tokens) }
{
    take(tokens, Word::BraceOpen)?;
    let mut statements: Block = short_list(alloc)?;
    while !tokens.stands(Word::BraceClose) {
        statements.push(statement(alloc, tokens)?)?;
    }
    tokens.skip();
    Ok(statements)
}

/// An expression and the statements behind it.
#[cycle(statement)]
fn headed(alloc: Global, tokens: &mut Tokens<'_>) -> Result<(Expression, Block), Stop>
    ensures gives { Parses headed_value headed [] result tokens.old tokens.new }
    ensures shorter { OnOk result (length tokens.new.tokens < length tokens.old.tokens) }
{
    let head = operand(alloc, tokens, EXPRESSION)?;
    match block(alloc, tokens) {
        Ok(body) => Ok((head, body)),
        Err(stop) => {
            drop(head);
            Err(stop)
        }
    }
}

#[cycle(statement)]
fn statement(alloc: Global, tokens: &mut Tokens<'_>) -> Result<Statement, Stop>
    ensures gives { Parses statement_value (a_statement ∷ []) [] result tokens.old tokens.new }
    ensures shorter { OnOk result (length tokens.new.tokens < length tokens.old.tokens) }
{
    match any_word(tokens) {
        Some((at, word)) => statement_of(alloc, tokens, at, word),
        None => Err(unexpected(tokens)),
    }
}

/// A statement that begins with this word.
#[cycle(statement)]
fn statement_of(
    alloc: Global,
    tokens: &mut Tokens<'_>,
    at: usize,
    word: Word,
) -> Result<Statement, Stop>
    ensures gives { let token = word_token at word in
        Begins statement_value token (begin_statement at word) result tokens.old tokens.new }
    ensures shorter { OnOk result (length tokens.new.tokens ≤ length tokens.old.tokens) }
{
    match word {
        Word::Let => let_statement(alloc, tokens, at),
        Word::Set => set_statement(alloc, tokens, at),
        Word::If => if_statement(alloc, tokens, at),
        Word::While => while_statement(alloc, tokens, at),
        Word::For => for_statement(alloc, tokens, at),
        Word::Echo => echo_statement(alloc, tokens, at),
        Word::Status => status_statement(alloc, tokens, at),
        Word::Return => return_statement(alloc, tokens, at),
        Word::Do => do_statement(alloc, tokens, at),
        _ => Err(ungrammatical(at)),
    }
}

fn let_statement(alloc: Global, tokens: &mut Tokens<'_>, at: usize) -> Result<Statement, Stop>
    ensures gives { Parses statement_value (behind_let at) [] result tokens.old tokens.new }
    ensures shorter { OnOk result (length tokens.new.tokens < length tokens.old.tokens) }
{
    let (name, value) = binding(alloc, tokens)?;
    let node = StatementNode::Let(name, value);
    Ok(Statement { at, node })
}

fn set_statement(alloc: Global, tokens: &mut Tokens<'_>, at: usize) -> Result<Statement, Stop>
    ensures gives { Parses statement_value (behind_set at) [] result tokens.old tokens.new }
    ensures shorter { OnOk result (length tokens.new.tokens < length tokens.old.tokens) }
{
    let (name, value) = binding(alloc, tokens)?;
    let node = StatementNode::Set(name, value);
    Ok(Statement { at, node })
}

#[cycle(statement)]
fn if_statement(alloc: Global, tokens: &mut Tokens<'_>, at: usize) -> Result<Statement, Stop>
    ensures gives { Parses statement_value (behind_if at) [] result tokens.old tokens.new }
    ensures shorter { OnOk result (length tokens.new.tokens < length tokens.old.tokens) }
{
    let (condition, body) = headed(alloc, tokens)?;
    match otherwise(alloc, tokens) {
        Ok(other) => {
            let node = StatementNode::If(condition, body, other);
            Ok(Statement { at, node })
        }
        Err(stop) => {
            drop(condition);
            drop(body);
            Err(stop)
        }
    }
}

#[cycle(statement)]
fn otherwise(alloc: Global, tokens: &mut Tokens<'_>) -> Result<Else, Stop>
    ensures gives { Parses else_value (else_part ∷ []) [] result tokens.old tokens.new }
    ensures shorter { OnOk result (length tokens.new.tokens ≤ length tokens.old.tokens) }
{
    if !tokens.stands(Word::Else) {
        return Ok(Else::None);
    }
    tokens.skip();
    let body = block(alloc, tokens)?;
    Ok(Else::Block(body))
}

#[cycle(statement)]
fn while_statement(alloc: Global, tokens: &mut Tokens<'_>, at: usize) -> Result<Statement, Stop>
    ensures gives { Parses statement_value (behind_while at) [] result tokens.old tokens.new }
    ensures shorter { OnOk result (length tokens.new.tokens < length tokens.old.tokens) }
{
    let (condition, body) = headed(alloc, tokens)?;
    let node = StatementNode::While(condition, body);
    Ok(Statement { at, node })
}

#[cycle(statement)]
fn for_statement(alloc: Global, tokens: &mut Tokens<'_>, at: usize) -> Result<Statement, Stop>
    ensures gives { Parses statement_value (behind_for at) [] result tokens.old tokens.new }
    ensures shorter { OnOk result (length tokens.new.tokens < length tokens.old.tokens) }
{
    let name = name(alloc, tokens)?;
    take(tokens, Word::In)?;
    let (members, body) = headed(alloc, tokens)?;
    let node = StatementNode::For(name, members, body);
    Ok(Statement { at, node })
}

fn echo_statement(alloc: Global, tokens: &mut Tokens<'_>, at: usize) -> Result<Statement, Stop>
    ensures gives { Parses statement_value (behind_echo at) [] result tokens.old tokens.new }
    ensures shorter { OnOk result (length tokens.new.tokens < length tokens.old.tokens) }
{
    let value = ended(alloc, tokens)?;
    let node = StatementNode::Echo(value);
    Ok(Statement { at, node })
}

fn status_statement(alloc: Global, tokens: &mut Tokens<'_>, at: usize) -> Result<Statement, Stop>
    ensures gives { Parses statement_value (behind_status at) [] result tokens.old tokens.new }
    ensures shorter { OnOk result (length tokens.new.tokens < length tokens.old.tokens) }
{
    let value = ended(alloc, tokens)?;
    let node = StatementNode::Status(value);
    Ok(Statement { at, node })
}

fn return_statement(alloc: Global, tokens: &mut Tokens<'_>, at: usize) -> Result<Statement, Stop>
    ensures gives { Parses statement_value (behind_return at) [] result tokens.old tokens.new }
    ensures shorter { OnOk result (length tokens.new.tokens < length tokens.old.tokens) }
{
    let value = ended(alloc, tokens)?;
    let node = StatementNode::Return(value);
    Ok(Statement { at, node })
}

fn do_statement(alloc: Global, tokens: &mut Tokens<'_>, at: usize) -> Result<Statement, Stop>
    ensures gives { Parses statement_value (behind_do at) [] result tokens.old tokens.new }
    ensures shorter { OnOk result (length tokens.new.tokens < length tokens.old.tokens) }
{
    let value = ended(alloc, tokens)?;
    let node = StatementNode::Do(value);
    Ok(Statement { at, node })
}
