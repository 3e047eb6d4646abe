ghost use Rattle.std.specs.Prelude.{◌≡◌};
ghost use Rattle.script_grammar.specs.Grouping.{operator_level};
ghost use Rattle.script_grammar.specs.Machine.{joint_level, word_joint};

use script_tokens::word::Word;
use script_tree::comparison::Comparison;
use script_tree::syntax::operator::BinaryOperator;

/// What stands between two operands, or behind one: docs/language.md, "Grammar".
#[derive(Clone, Copy, PartialEq, Eq)]
pub enum Joint {
    Indexing,
    And,
    Or,
    Operator(BinaryOperator),
}

fn operator_level(operator: BinaryOperator) -> u32
    ensures { result ≡ operator_level operator }
{
    match operator {
        BinaryOperator::Compare(_) => 4,
        BinaryOperator::Plus | BinaryOperator::Minus => 3,
        BinaryOperator::Times | BinaryOperator::Quotient | BinaryOperator::Remainder => 2,
    }
}

impl Joint {
    /// How tightly it binds, from 0 for indexing up to 6 for `or`.
    pub fn level(self) -> u32
        ensures { result ≡ joint_level self }
    {
        match self {
            Joint::Indexing => 0,
            Joint::And => 5,
            Joint::Or => 6,
            Joint::Operator(operator) => operator_level(operator),
        }
    }

    /// What this word joins; a word that joins nothing gives none.
    pub fn of_word(word: Word) -> Option<Joint>
        ensures { result ≡ word_joint word }
    {
        match word {
            Word::SquareOpen => Some(Joint::Indexing),
            Word::And => Some(Joint::And),
            Word::Or => Some(Joint::Or),
            Word::Plus => Some(Joint::Operator(BinaryOperator::Plus)),
            Word::Minus => Some(Joint::Operator(BinaryOperator::Minus)),
            Word::Times => Some(Joint::Operator(BinaryOperator::Times)),
            Word::Over => Some(Joint::Operator(BinaryOperator::Quotient)),
            Word::Percent => Some(Joint::Operator(BinaryOperator::Remainder)),
            Word::Equal => Some(Joint::Operator(BinaryOperator::Compare(Comparison::Equal))),
            Word::Unequal => Some(Joint::Operator(BinaryOperator::Compare(Comparison::Unequal))),
            Word::Less => Some(Joint::Operator(BinaryOperator::Compare(Comparison::Less))),
            Word::AtMost => Some(Joint::Operator(BinaryOperator::Compare(Comparison::AtMost))),
            Word::Greater => Some(Joint::Operator(BinaryOperator::Compare(Comparison::Greater))),
            Word::AtLeast => Some(Joint::Operator(BinaryOperator::Compare(Comparison::AtLeast))),
            _ => None,
        }
    }
}
