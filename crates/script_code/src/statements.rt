ghost use Rattle.std.specs.Prelude.{◌≡◌, ◌++◌, ◌∷◌, [], ℕ, OnOk};
ghost use Rattle.script_tree.specs.StatementView.{statement_of, else_of};
ghost use Rattle.script_tree.specs.Syntax.{let_, while_, for_};
ghost use Rattle.script_tree.specs.SyntaxLists.{statements_of};
ghost use Rattle.script_code.specs.Code.{statement_code, block_code, names_after};
ghost use Rattle.script_code.specs.Jumps.{jumped, branch_beyond};
ghost use Rattle.script_code.specs.Jumps.{scoped_block, scoped_else, turn_code};
ghost use Rattle.script_code.specs.declared.instruction.Instruction.TheVariants as instruction;

use crate::emitter::{Emitter, put, replace};
use crate::instruction::Instruction;
use crate::scope::Scope;
use script_tree::syntax::expression::Expression;
use script_tree::syntax::name::Name;
use script_tree::syntax::statement::{Block, Else, Statement, StatementNode};
use std::alloc::AllocError;

impl<'a> Emitter<'a> {
    /// Writes the code of a statement.
    #[cycle(emit_statements)]
    fn statement(
        &self,
        code: &mut Vec<Instruction>,
        scope: &mut Scope<'a>,
        s: &'a Statement,
    ) -> Result<(), AllocError>
        ensures code { OnOk result (code.new.items
            ≡ code.old.items ++ statement_code self.now scope.old s.now) }
        ensures scope { OnOk result (scope.new ≡ names_after scope.old s.now) }
    {
        self.statement_node(code, scope, s.at, &s.node)
    }

    #[cycle(emit_statements)]
    fn statement_node(
        &self,
        code: &mut Vec<Instruction>,
        scope: &mut Scope<'a>,
        at: usize,
        node: &'a StatementNode,
    ) -> Result<(), AllocError>
        ensures code { OnOk result (code.new.items
            ≡ code.old.items ++ statement_code self.now scope.old (statement_of at node.now)) }
        ensures scope { OnOk result (scope.new
            ≡ names_after scope.old (statement_of at node.now)) }
    {
        match node {
            StatementNode::Let(x, e) => self.let_statement(code, scope, x, e),
            StatementNode::Set(x, e) => {
                let slot = scope.slot(&x.text);
                self.expression_then(code, scope, e, Instruction::Assign(slot))
            }
            StatementNode::If(e, body, other) => {
                self.expression(code, scope, e)?;
                self.first(code, scope, body)?;
                self.second(code, scope, other)
            }
            StatementNode::While(e, body) => self.while_loop(code, scope, e, body),
            StatementNode::For(x, e, body) => self.for_loop(code, scope, x, e, body),
            StatementNode::Echo(e) => self.expression_then(code, scope, e, Instruction::Echo),
            StatementNode::Status(e) => self.expression_then(code, scope, e, Instruction::Status),
            StatementNode::Return(e) => self.expression_then(code, scope, e, Instruction::Return),
            StatementNode::Do(e) => self.expression_then(code, scope, e, Instruction::Discard),
        }
    }

    /// Writes a declaration of a variable, which is in scope from then on.
    fn let_statement(
        &self,
        code: &mut Vec<Instruction>,
        scope: &mut Scope<'a>,
        x: &'a Name,
        e: &Expression,
    ) -> Result<(), AllocError>
        ensures code { (at : ℕ) → OnOk result (code.new.items
            ≡ code.old.items ++ statement_code self.now scope.old (let_ at x.now e.now)) }
        ensures scope { OnOk result (scope.new ≡ scope.old ++ x.now.text ∷ []) }
    {
        self.expression_then(code, scope, e, Instruction::Declare)?;
        scope.declare(&x.text)
    }

    /// Writes the first side of a choice, and before it the jump to the second.
    #[cycle(emit_statements)]
    fn first(
        &self,
        code: &mut Vec<Instruction>,
        scope: &mut Scope<'a>,
        body: &'a Block,
    ) -> Result<(), AllocError>
        ensures code { OnOk result (code.new.items
            ≡ code.old.items ++ jumped branch_beyond (scoped_block self.now scope.old body.now)) }
        ensures scope { OnOk result (scope.new ≡ scope.old) }
    {
        let jump = code.len();
        put(code, Instruction::Branch(0))?;
        self.scoped(code, scope, body)?;
        let past = Instruction::Branch(code.len() - jump);
        replace(code, jump, past);
        Ok(())
    }

    /// Writes the second side of a choice, and before it the jump past it.
    #[cycle(emit_statements)]
    fn second(
        &self,
        code: &mut Vec<Instruction>,
        scope: &mut Scope<'a>,
        other: &'a Else,
    ) -> Result<(), AllocError>
        ensures code { OnOk result (code.new.items ≡ code.old.items
            ++ jumped instruction.Jump (scoped_else self.now scope.old (else_of other.now))) }
        ensures scope { OnOk result (scope.new ≡ scope.old) }
    {
        let jump = code.len();
        put(code, Instruction::Jump(0))?;
        self.other(code, scope, other)?;
        let past = Instruction::Jump(code.len() - jump - 1);
        replace(code, jump, past);
        Ok(())
    }

    /// Writes the second side of a choice; where there is none, a block without statements.
    #[cycle(emit_statements)]
    fn other(
        &self,
        code: &mut Vec<Instruction>,
        scope: &mut Scope<'a>,
        other: &'a Else,
    ) -> Result<(), AllocError>
        ensures code { OnOk result (code.new.items
            ≡ code.old.items ++ scoped_else self.now scope.old (else_of other.now)) }
        ensures scope { OnOk result (scope.new ≡ scope.old) }
    {
        match other {
            Else::None => put(code, Instruction::Leave(scope.len())),
            Else::Block(body) => self.scoped(code, scope, body),
        }
    }

    /// Writes a loop: a jump to its test, its body, its test, and the jump back.
    #[cycle(emit_statements)]
    fn while_loop(
        &self,
        code: &mut Vec<Instruction>,
        scope: &mut Scope<'a>,
        e: &Expression,
        body: &'a Block,
    ) -> Result<(), AllocError>
        ensures code { (at : ℕ) → OnOk result (code.new.items ≡ code.old.items
            ++ statement_code self.now scope.old (while_ at e.now (statements_of body.now))) }
        ensures scope { OnOk result (scope.new ≡ scope.old) }
    {
        let start = code.len();
        self.body(code, scope, body)?;
        self.expression(code, scope, e)?;
        let back = code.len() - start - 1;
        put(code, Instruction::Again(back))
    }

    /// Writes a loop's body, and before it the jump past it.
    #[cycle(emit_statements)]
    fn body(
        &self,
        code: &mut Vec<Instruction>,
        scope: &mut Scope<'a>,
        body: &'a Block,
    ) -> Result<(), AllocError>
        ensures code { OnOk result (code.new.items ≡ code.old.items
            ++ jumped instruction.Jump (scoped_block self.now scope.old body.now)) }
        ensures scope { OnOk result (scope.new ≡ scope.old) }
    {
        let jump = code.len();
        put(code, Instruction::Jump(0))?;
        self.scoped(code, scope, body)?;
        let past = Instruction::Jump(code.len() - jump - 1);
        replace(code, jump, past);
        Ok(())
    }

    /// Writes a loop over a list: the list, the body, and the jump back with the next member.
    #[cycle(emit_statements)]
    fn for_loop(
        &self,
        code: &mut Vec<Instruction>,
        scope: &mut Scope<'a>,
        x: &'a Name,
        e: &Expression,
        body: &'a Block,
    ) -> Result<(), AllocError>
        ensures code { (at : ℕ) → OnOk result (code.new.items ≡ code.old.items
            ++ statement_code self.now scope.old (for_ at x.now e.now (statements_of body.now))) }
        ensures scope { OnOk result (scope.new ≡ scope.old) }
    {
        self.expression(code, scope, e)?;
        let start = code.len();
        self.turns(code, scope, x, body)?;
        let back = code.len() - start - 1;
        put(code, Instruction::Turn(back))
    }

    /// Writes the body of a loop over a list, and before it the jump past it.
    #[cycle(emit_statements)]
    fn turns(
        &self,
        code: &mut Vec<Instruction>,
        scope: &mut Scope<'a>,
        x: &'a Name,
        body: &'a Block,
    ) -> Result<(), AllocError>
        ensures code { OnOk result (code.new.items ≡ code.old.items
            ++ jumped instruction.Each (turn_code self.now scope.old x.now.text body.now)) }
        ensures scope { OnOk result (scope.new ≡ scope.old) }
    {
        let jump = code.len();
        put(code, Instruction::Each(0))?;
        self.turn(code, scope, x, body)?;
        let past = Instruction::Each(code.len() - jump - 1);
        replace(code, jump, past);
        Ok(())
    }

    /// Writes the body of a loop over a list, with the variable of the loop in scope.
    #[cycle(emit_statements)]
    fn turn(
        &self,
        code: &mut Vec<Instruction>,
        scope: &mut Scope<'a>,
        x: &'a Name,
        body: &'a Block,
    ) -> Result<(), AllocError>
        ensures code { OnOk result (code.new.items
            ≡ code.old.items ++ turn_code self.now scope.old x.now.text body.now) }
        ensures scope { OnOk result (scope.new ≡ scope.old) }
    {
        let kept = scope.len();
        scope.declare(&x.text)?;
        self.block(code, scope, body)?;
        scope.leave(kept);
        put(code, Instruction::Leave(kept))
    }

    /// Writes a block within others.
    #[cycle(emit_statements)]
    fn scoped(
        &self,
        code: &mut Vec<Instruction>,
        scope: &mut Scope<'a>,
        body: &'a Block,
    ) -> Result<(), AllocError>
        ensures code { OnOk result (code.new.items
            ≡ code.old.items ++ scoped_block self.now scope.old body.now) }
        ensures scope { OnOk result (scope.new ≡ scope.old) }
    {
        self.block(code, scope, body)?;
        put(code, Instruction::Leave(scope.len()))
    }

    /// Writes the code of a block. What it declares is in scope only within it.
    #[cycle(emit_statements)]
    pub(crate) fn block(
        &self,
        code: &mut Vec<Instruction>,
        scope: &mut Scope<'a>,
        body: &'a Block,
    ) -> Result<(), AllocError>
        ensures code { OnOk result (code.new.items
            ≡ code.old.items ++ block_code self.now scope.old (statements_of body.now)) }
        ensures scope { OnOk result (scope.new ≡ scope.old) }
    {
        let kept = scope.len();
        for s in body.as_slice() {
            self.statement(code, scope, s)?;
        }
        scope.leave(kept);
        Ok(())
    }
}
