ghost use Rattle.std.specs.Prelude.{◌≡◌};

use crate::syntax::expression::Expression;
use crate::syntax::name::Name;
use basis::Items;
use std::marker::Model;

/// A statement.
#[cycle(statement)]
#[derive(Drop)]
pub struct Statement {
    pub at: usize,
    pub node: StatementNode,
}

/// The kinds of statements.
#[cycle(statement)]
#[derive(Drop)]
pub enum StatementNode {
    Let(Name, Expression),
    Set(Name, Expression),
    If(Expression, Block, Else),
    While(Expression, Block),
    For(Name, Expression, Block),
    Echo(Expression),
    Status(Expression),
    Return(Expression),
    Do(Expression),
}

/// What an `if` does where its condition is false.
#[cycle(statement)]
#[derive(Drop)]
pub enum Else {
    None,
    Block(Block),
}

/// The statements of a block, in order.
pub type Block = Items<Statement>;

impl Model for Statement {
    ghost use Rattle.script_tree.specs.Syntax.{Statement as Meant};
    ghost use Rattle.script_tree.specs.SyntaxCodes.{coded_statement};

    ghost Value = { Meant };

    ghost coded = { coded_statement };

    ghost use Rattle.script_tree.specs.StatementView.{statement_of};
    ghost use Rattle.script_tree.specs.StatementWeight.{statement_weight};

    ghost view = { λ a. statement_of a.at a.node };

    ghost size = { statement_weight };

    ghost use Rattle.script_tree.specs.StatementFalls.{statement_falls};

    ghost size_decreases = { λ a h. statement_falls a };
}
