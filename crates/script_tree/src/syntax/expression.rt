use crate::comparison::Comparison;
use crate::syntax::name::{Name, Names};
use crate::syntax::operator::{BinaryOperator, UnaryOperator};
use crate::text::Text;
use basis::Items;
use std::marker::Model;
use std::sync::Arc;

/// An expression.
#[cycle(expression)]
#[derive(Drop)]
pub struct Expression {
    pub at: usize,
    pub node: ExpressionNode,
}

/// The kinds of expressions.
#[cycle(expression)]
#[derive(Drop)]
pub enum ExpressionNode {
    Number(i64),
    /// A literal. The values that it is evaluated to share it.
    Text(Arc<Text>),
    Bool(bool),
    Null,
    Bracket(Box<Expression>),
    Variable(Text),
    /// A call of a function of the program, or of a built-in one.
    Call(Text, Expressions),
    List(Expressions),
    Transact(Queries),
    Unary(UnaryOperator, Box<Expression>),
    Binary(BinaryOperator, Box<Expression>, Box<Expression>),
    /// The right operand is evaluated only where the left one is true.
    And(Box<Expression>, Box<Expression>),
    /// The right operand is evaluated only where the left one is false.
    Or(Box<Expression>, Box<Expression>),
    Index(Box<Expression>, Box<Expression>),
}

/// Expressions, in order.
pub type Expressions = Items<Expression>;

/// A statement of a transaction.
#[cycle(expression)]
#[derive(Drop)]
pub struct Query {
    pub at: usize,
    pub node: QueryNode,
}

/// The kinds of statements of a transaction.
#[cycle(expression)]
#[derive(Drop)]
pub enum QueryNode {
    /// The table, and the values of a row.
    Insert(Name, Expressions),
    /// The columns, the table, and the tests of its rows.
    Select(Names, Name, Conditions),
    /// The table, what is set, and the tests of its rows.
    Update(Name, Assignments, Conditions),
    /// The table, and the tests of its rows.
    Delete(Name, Conditions),
    /// How many rows are expected, the table, and the tests of its rows.
    Expect(Box<Expression>, Name, Conditions),
}

/// The statements of a transaction, in order.
pub type Queries = Items<Query>;

/// A test of a `where`.
#[cycle(expression)]
#[derive(Drop)]
pub struct Condition {
    pub column: Name,
    pub comparison: Comparison,
    pub value: Expression,
}

/// The tests of a `where`, in order.
pub type Conditions = Items<Condition>;

/// An assignment of an `update`.
#[cycle(expression)]
#[derive(Drop)]
pub struct Assignment {
    pub column: Name,
    pub value: Expression,
}

/// The assignments of an `update`, in order.
pub type Assignments = Items<Assignment>;

impl Model for Expression {
    ghost use Rattle.script_tree.specs.Syntax.{Expression as Meant};
    ghost use Rattle.script_tree.specs.SyntaxCodes.{coded_expression};

    ghost Value = { Meant };

    ghost coded = { coded_expression };

    ghost use Rattle.script_tree.specs.ExpressionView.{expression_of};
    ghost use Rattle.script_tree.specs.ExpressionWeight.{expression_weight};

    ghost view = { λ a. expression_of a.at a.node };

    ghost size = { expression_weight };

    ghost use Rattle.script_tree.specs.ExpressionFalls.{expression_falls};

    ghost size_decreases = { λ a h. expression_falls a };
}

impl Model for Query {
    ghost use Rattle.script_tree.specs.Syntax.{Query as Meant};
    ghost use Rattle.script_tree.specs.SyntaxCodes.{coded_query};

    ghost Value = { Meant };

    ghost coded = { coded_query };

    ghost use Rattle.script_tree.specs.ExpressionView.{query_of};
    ghost use Rattle.script_tree.specs.ExpressionWeight.{query_weight};

    ghost view = { λ a. query_of a.at a.node };

    ghost size = { query_weight };

    ghost use Rattle.script_tree.specs.ExpressionFalls.{query_falls};

    ghost size_decreases = { λ a h. query_falls a };
}
