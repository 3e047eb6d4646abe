//! The names of stores in calls.

ghost use Rattle.std.specs.Prelude.{◌≡◌, ℕ};
ghost use Rattle.script_tree.specs.ExpressionView.{expression_of};
ghost use Rattle.script_tree.specs.Syntax.{expression, Expressions as Several};
ghost use Rattle.script_tree.specs.SyntaxLists.{expressions_of};
ghost use Rattle.script_meaning.specs.Evaluate.{store_name};

use script_tree::syntax::expression::{Expression, ExpressionNode};

/// The bare name of a store that a call's arguments begin with.
pub fn store_name(operands: &[Expression]) -> &[u8]
    ensures { result.now ≡ store_name (expressions_of operands.now) }
{
    match operands.first() {
        Some(first) => bare_name(&first.node),
        None => &[],
    }
}

fn bare_name(node: &ExpressionNode) -> &[u8]
    ensures { (at : ℕ) (es : Several)
        → result.now ≡ store_name (expression (expression_of at node.now) es) }
{
    match node {
        ExpressionNode::Variable(name) => name.as_bytes(),
        ExpressionNode::Number(_)
        | ExpressionNode::Text(_)
        | ExpressionNode::Bool(_)
        | ExpressionNode::Null
        | ExpressionNode::Bracket(_)
        | ExpressionNode::Call(_, _)
        | ExpressionNode::List(_)
        | ExpressionNode::Transact(_)
        | ExpressionNode::Unary(_, _)
        | ExpressionNode::Binary(_, _, _)
        | ExpressionNode::And(_, _)
        | ExpressionNode::Or(_, _)
        | ExpressionNode::Index(_, _) => &[],
    }
}
