ghost use Rattle.std.specs.Prelude.{◌≡◌};
ghost use Rattle.script_grammar.specs.Spelling.{comparison_word, infix_word};
ghost use Rattle.script_grammar.specs.Spelling.{prefix_word, truth_word};

use script_tokens::word::Word;
use script_tree::comparison::Comparison;
use script_tree::syntax::operator::{BinaryOperator, UnaryOperator};

/// The sign of a comparison.
pub fn comparison_word(comparison: Comparison) -> Word
    ensures { result ≡ comparison_word comparison }
{
    match comparison {
        Comparison::Equal => Word::Equal,
        Comparison::Unequal => Word::Unequal,
        Comparison::Less => Word::Less,
        Comparison::AtMost => Word::AtMost,
        Comparison::Greater => Word::Greater,
        Comparison::AtLeast => Word::AtLeast,
    }
}

/// The sign between the operands of an operator.
pub fn infix_word(operator: BinaryOperator) -> Word
    ensures { result ≡ infix_word operator }
{
    match operator {
        BinaryOperator::Compare(comparison) => comparison_word(comparison),
        BinaryOperator::Plus => Word::Plus,
        BinaryOperator::Minus => Word::Minus,
        BinaryOperator::Times => Word::Times,
        BinaryOperator::Quotient => Word::Over,
        BinaryOperator::Remainder => Word::Percent,
    }
}

/// The keyword or sign before the operand of an operator.
pub fn prefix_word(operator: UnaryOperator) -> Word
    ensures { result ≡ prefix_word operator }
{
    match operator {
        UnaryOperator::Not => Word::Not,
        UnaryOperator::Negate => Word::Minus,
    }
}

pub fn truth_word(holds: bool) -> Word
    ensures { result ≡ truth_word holds }
{
    if holds { Word::True } else { Word::False }
}
