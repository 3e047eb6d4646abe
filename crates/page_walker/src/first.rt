ghost use Rattle.std.specs.Prelude.{◌≡◌, ℕ, option_copied};
ghost use Rattle.script_tree.specs.ExpressionView.{expression_of};
ghost use Rattle.page_walker.specs.Rows.{first_of};

use script_tree::syntax::expression::{Expression, ExpressionNode};

/// The operand that an expression evaluates first, before it does anything else.
pub fn first_operand(node: &ExpressionNode) -> Option<&Expression>
    ensures { (at : ℕ) → option_copied result ≡ first_of (expression_of at node.now) }
{
    match node {
        ExpressionNode::Unary(_, first)
        | ExpressionNode::Binary(_, first, _)
        | ExpressionNode::And(first, _)
        | ExpressionNode::Or(first, _)
        | ExpressionNode::Index(first, _) => Some(first),
        ExpressionNode::Number(_)
        | ExpressionNode::Text(_)
        | ExpressionNode::Bool(_)
        | ExpressionNode::Null
        | ExpressionNode::Bracket(_)
        | ExpressionNode::Variable(_)
        | ExpressionNode::Call(_, _)
        | ExpressionNode::List(_)
        | ExpressionNode::Transact(_) => None,
    }
}
