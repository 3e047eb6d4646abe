ghost use Rattle.std.specs.Prelude.{◌≡◌, ◌<◌, ◌≤◌, ◌∷◌, [], length, OnOk, IfOk};
ghost use Rattle.script_grammar.specs.Grouping.{most_repeats};
ghost use Rattle.script_grammar.specs.Machine.{joined, word_joint, word_prefix, operand, prefixes, atom, name_tail, arguments, more_arguments, begin_word};
ghost use Rattle.script_syntax.specs.Parses.{Parses, Begins, IsBehindJoint, IsPlace, word_token, of_level, joint_at, prefix_at, expression_value, expressions_value};
ghost use Rattle.script_syntax.specs.Behind.{behind_bracket, behind_list, closed, indexed, some_arguments};

use crate::feed::{Stop, any_word, short_list, take, unexpected, ungrammatical};
use crate::query::transact;
use script_grammar::joint::Joint;
use script_tokens::scan::Tokens;
use script_tokens::shape::Shape;
use script_tokens::word::Word;
use script_tree::limits::MOST_REPEATS;
use script_tree::syntax::expression::{Expression, ExpressionNode, Expressions};
use script_tree::syntax::name::Name;
use script_tree::syntax::operator::UnaryOperator;
use std::alloc::{AllocError, Global};
use std::sync::Arc;

/// The level of a whole expression.
pub const EXPRESSION: u32 = 6;

/// The level of the values of a `where`.
pub const SUM: u32 = 3;

fn joined(
    alloc: Global,
    joint: Joint,
    left: Expression,
    right: Expression,
) -> Result<Expression, AllocError>
    ensures { IfOk result (λ e. e ≡ joined joint left right) }
{
    let at = left.at;
    let left = Box::new(alloc, left)?;
    let right = Box::new(alloc, right)?;
    let node = match joint {
        Joint::Indexing => ExpressionNode::Index(left, right),
        Joint::And => ExpressionNode::And(left, right),
        Joint::Or => ExpressionNode::Or(left, right),
        Joint::Operator(operator) => ExpressionNode::Binary(operator, left, right),
    };
    Ok(Expression { at, node })
}

fn of_level(level: u32, word: Word) -> Option<Joint>
    ensures { result ≡ of_level level (word_joint word) }
{
    match Joint::of_word(word) {
        Some(joint) => {
            if joint.level() == level {
                Some(joint)
            } else {
                None
            }
        }
        None => None,
    }
}

/// The joint of this level that stands first.
fn joint_at(tokens: &Tokens<'_>, level: u32) -> Option<Joint>
    ensures { result ≡ joint_at level tokens.now.tokens }
{
    match tokens.peek() {
        Some(Shape::Word(word)) => of_level(level, word),
        _ => None,
    }
}

fn prefix_of(word: Word) -> Option<UnaryOperator>
    ensures { result ≡ word_prefix word }
{
    match word {
        Word::Not => Some(UnaryOperator::Not),
        Word::Minus => Some(UnaryOperator::Negate),
        _ => None,
    }
}

/// The prefix that stands first, with its place.
fn prefix_at(tokens: &Tokens<'_>) -> Option<(usize, UnaryOperator)>
    ensures { result ≡ prefix_at tokens.now.tokens }
{
    let at = tokens.place()?;
    match tokens.peek() {
        Some(Shape::Word(word)) => {
            let operator = prefix_of(word)?;
            Some((at, operator))
        }
        _ => None,
    }
}

fn most_repeats(level: u32) -> usize
    ensures { result ≡ most_repeats level }
{
    if level == 4 { 1 } else { MOST_REPEATS }
}

/// An expression of this level or a tighter one.
#[cycle(expression)]
pub fn operand(alloc: Global, tokens: &mut Tokens<'_>, level: u32) -> Result<Expression, Stop>
    requires { 0 < level }
    ensures gives { Parses expression_value (operand level ∷ []) [] result tokens.old tokens.new }
    ensures shorter { OnOk result (length tokens.new.tokens < length tokens.old.tokens) }
{
    if level == 1 {
        return prefixed(alloc, tokens, MOST_REPEATS);
    }
    let mut value = operand(alloc, tokens, level - 1)?;
    let mut left = most_repeats(level);
    while let Some(joint) = joint_at(tokens, level) {
        let right = match behind_joint(alloc, tokens, level, left) {
            Ok(right) => right,
            Err(stop) => {
                drop(value);
                return Err(stop);
            }
        };
        value = joined(alloc, joint, value, right)?;
        left -= 1;
    }
    Ok(value)
}

/// What is joined by the joint of this level that stands first, where so many may follow.
#[cycle(expression)]
fn behind_joint(
    alloc: Global,
    tokens: &mut Tokens<'_>,
    level: u32,
    left: usize,
) -> Result<Expression, Stop>
    requires { 2 ≤ level }
    ensures gives { IsBehindJoint level left result tokens.old tokens.new }
    ensures more { OnOk result (0 < left) }
    ensures shorter { OnOk result (length tokens.new.tokens < length tokens.old.tokens) }
{
    if left == 0 {
        return Err(unexpected(tokens));
    }
    tokens.skip();
    operand(alloc, tokens, level - 1)
}

/// An expression and the word behind it.
#[cycle(expression)]
pub fn closed(alloc: Global, tokens: &mut Tokens<'_>, close: Word) -> Result<Expression, Stop>
    ensures gives { Parses expression_value (closed close) [] result tokens.old tokens.new }
    ensures shorter { OnOk result (length tokens.new.tokens < length tokens.old.tokens) }
{
    let value = operand(alloc, tokens, EXPRESSION)?;
    match take(tokens, close) {
        Ok(()) => Ok(value),
        Err(stop) => {
            drop(value);
            Err(stop)
        }
    }
}

/// An operand behind so many prefixes at most.
#[cycle(expression)]
fn prefixed(alloc: Global, tokens: &mut Tokens<'_>, left: usize) -> Result<Expression, Stop>
    ensures gives { Parses expression_value (prefixes left ∷ []) [] result tokens.old tokens.new }
    ensures shorter { OnOk result (length tokens.new.tokens < length tokens.old.tokens) }
{
    let Some((at, operator)) = prefix_at(tokens) else {
        return indexed(alloc, tokens);
    };
    if left == 0 {
        return Err(unexpected(tokens));
    }
    tokens.skip();
    let value = prefixed(alloc, tokens, left - 1)?;
    let value = Box::new(alloc, value)?;
    Ok(Expression {
        at,
        node: ExpressionNode::Unary(operator, value),
    })
}

/// An atom and the places in it.
#[cycle(expression)]
fn indexed(alloc: Global, tokens: &mut Tokens<'_>) -> Result<Expression, Stop>
    ensures gives { Parses expression_value indexed [] result tokens.old tokens.new }
    ensures shorter { OnOk result (length tokens.new.tokens < length tokens.old.tokens) }
{
    let mut value = atom(alloc, tokens)?;
    let mut left = MOST_REPEATS;
    while tokens.stands(Word::SquareOpen) {
        let place = match place(alloc, tokens, left) {
            Ok(place) => place,
            Err(stop) => {
                drop(value);
                return Err(stop);
            }
        };
        value = joined(alloc, Joint::Indexing, value, place)?;
        left -= 1;
    }
    Ok(value)
}

/// A place behind the bracket that stands first, where so many may follow.
#[cycle(expression)]
fn place(alloc: Global, tokens: &mut Tokens<'_>, left: usize) -> Result<Expression, Stop>
    ensures gives { IsPlace left result tokens.old tokens.new }
    ensures more { OnOk result (0 < left) }
    ensures shorter { OnOk result (length tokens.new.tokens < length tokens.old.tokens) }
{
    if left == 0 {
        return Err(unexpected(tokens));
    }
    tokens.skip();
    closed(alloc, tokens, Word::SquareClose)
}

#[cycle(expression)]
fn atom(alloc: Global, tokens: &mut Tokens<'_>) -> Result<Expression, Stop>
    ensures gives { Parses expression_value (atom ∷ []) [] result tokens.old tokens.new }
    ensures shorter { OnOk result (length tokens.new.tokens < length tokens.old.tokens) }
{
    if let Some(name) = tokens.name(alloc)? {
        return named(alloc, tokens, name);
    }
    if let Some((at, number)) = tokens.number() {
        let node = ExpressionNode::Number(number);
        return Ok(Expression { at, node });
    }
    if let Some(text) = tokens.text(alloc)? {
        let Name { at, text } = text;
        let node = ExpressionNode::Text(Arc::new(alloc, text)?);
        return Ok(Expression { at, node });
    }
    match any_word(tokens) {
        Some((at, word)) => word_atom(alloc, tokens, at, word),
        None => Err(unexpected(tokens)),
    }
}

/// A variable, or a call.
#[cycle(expression)]
fn named(alloc: Global, tokens: &mut Tokens<'_>, name: Name) -> Result<Expression, Stop>
    ensures gives { let symbols = name_tail name.at name.text ∷ [] in
        Parses expression_value symbols [] result tokens.old tokens.new }
    ensures shorter { OnOk result (length tokens.new.tokens ≤ length tokens.old.tokens) }
{
    let Name { at, text } = name;
    if tokens.stands(Word::Open) {
        tokens.skip();
        let items = arguments(alloc, tokens, Word::Close)?;
        let node = ExpressionNode::Call(text, items);
        Ok(Expression { at, node })
    } else {
        let node = ExpressionNode::Variable(text);
        Ok(Expression { at, node })
    }
}

/// Expressions up to the closing bracket.
#[cycle(expression)]
fn arguments(alloc: Global, tokens: &mut Tokens<'_>, close: Word) -> Result<Expressions, Stop>
    ensures gives { let symbols = arguments close ∷ [] in
        Parses expressions_value symbols (expressions_value []) result tokens.old tokens.new }
    ensures shorter { OnOk result (length tokens.new.tokens ≤ length tokens.old.tokens) }
{
    if tokens.stands(close) {
        tokens.skip();
        return Ok(Expressions::new(alloc));
    }
    let items: Expressions = short_list(alloc)?;
    some_arguments(alloc, tokens, items, close)
}

/// One expression or more, up to the closing bracket, added to the items.
#[cycle(expression)]
pub fn some_arguments(
    alloc: Global,
    tokens: &mut Tokens<'_>,
    items: Expressions,
    close: Word,
) -> Result<Expressions, Stop>
    ensures gives { let symbols = some_arguments close in
        Parses expressions_value symbols (expressions_value items) result tokens.old tokens.new }
    ensures shorter { OnOk result (length tokens.new.tokens < length tokens.old.tokens) }
{
    let mut items = items;
    items.push(operand(alloc, tokens, EXPRESSION)?)?;
    more_arguments(alloc, tokens, items, close)
}

/// The further expressions up to the closing bracket.
#[cycle(expression)]
fn more_arguments(
    alloc: Global,
    tokens: &mut Tokens<'_>,
    items: Expressions,
    close: Word,
) -> Result<Expressions, Stop>
    ensures gives { let symbols = more_arguments close ∷ [] in
        Parses expressions_value symbols (expressions_value items) result tokens.old tokens.new }
    ensures shorter { OnOk result (length tokens.new.tokens ≤ length tokens.old.tokens) }
{
    let mut items = items;
    while !tokens.stands(close) {
        take(tokens, Word::Comma)?;
        items.push(operand(alloc, tokens, EXPRESSION)?)?;
    }
    tokens.skip();
    Ok(items)
}

/// An atom that begins with this word.
#[cycle(expression)]
fn word_atom(
    alloc: Global,
    tokens: &mut Tokens<'_>,
    at: usize,
    word: Word,
) -> Result<Expression, Stop>
    ensures gives { let token = word_token at word in
        Begins expression_value token (begin_word at word) result tokens.old tokens.new }
    ensures shorter { OnOk result (length tokens.new.tokens ≤ length tokens.old.tokens) }
{
    let node = match word {
        Word::True => ExpressionNode::Bool(true),
        Word::False => ExpressionNode::Bool(false),
        Word::Null => ExpressionNode::Null,
        Word::Open => return bracket(alloc, tokens, at),
        Word::SquareOpen => return list(alloc, tokens, at),
        Word::Transact => return transact(alloc, tokens, at),
        _ => return Err(ungrammatical(at)),
    };
    Ok(Expression { at, node })
}

#[cycle(expression)]
fn bracket(alloc: Global, tokens: &mut Tokens<'_>, at: usize) -> Result<Expression, Stop>
    ensures gives { Parses expression_value (behind_bracket at) [] result tokens.old tokens.new }
    ensures shorter { OnOk result (length tokens.new.tokens < length tokens.old.tokens) }
{
    let inner = closed(alloc, tokens, Word::Close)?;
    let node = ExpressionNode::Bracket(Box::new(alloc, inner)?);
    Ok(Expression { at, node })
}

#[cycle(expression)]
fn list(alloc: Global, tokens: &mut Tokens<'_>, at: usize) -> Result<Expression, Stop>
    ensures gives { let symbols = behind_list at in
        Parses expression_value symbols (expressions_value []) result tokens.old tokens.new }
    ensures shorter { OnOk result (length tokens.new.tokens ≤ length tokens.old.tokens) }
{
    let items = arguments(alloc, tokens, Word::SquareClose)?;
    let node = ExpressionNode::List(items);
    Ok(Expression { at, node })
}
