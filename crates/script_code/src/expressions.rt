ghost use Rattle.std.specs.Prelude.{◌≡◌, ◌++◌, ◌∷◌, [], ℕ, map, OnOk};
ghost use Rattle.script_tree.specs.ExpressionView.{expression_of, query_of};
ghost use Rattle.script_tree.specs.ExpressionView.{condition_of, assignment_of};
ghost use Rattle.script_tree.specs.SyntaxLists.{expressions_of, queries_of};
ghost use Rattle.script_tree.specs.SyntaxLists.{conditions_of, assignments_of};
ghost use Rattle.script_tree.specs.Syntax.{call};
ghost use Rattle.script_code.specs.Code.{expression_code, expressions_code, arguments_code};
ghost use Rattle.script_code.specs.Code.{query_code, queries_code, conditions_code};
ghost use Rattle.script_code.specs.Code.{assignments_code};
ghost use Rattle.script_code.specs.Jumps.{jumped};
ghost use Rattle.script_code.specs.declared.instruction.Instruction.TheVariants as instruction;

use crate::emitter::{Emitter, put, replace};
use crate::instruction::Instruction;
use crate::scope::Scope;
use script_tree::syntax::expression::{
    Assignments, Conditions, Expression, ExpressionNode, Expressions, Query, QueryNode,
};
use script_tree::text::Text;
use script_tree::value::Value;
use std::alloc::AllocError;

impl Emitter<'_> {
    /// Writes the code of an expression.
    #[cycle(emit)]
    pub(crate) fn expression(
        &self,
        code: &mut Vec<Instruction>,
        scope: &Scope,
        e: &Expression,
    ) -> Result<(), AllocError>
        ensures { OnOk result (code.new.items
            ≡ code.old.items ++ expression_code self.now scope.now e.now) }
    {
        self.expression_node(code, scope, e.at, &e.node)
    }

    #[cycle(emit)]
    fn expression_node(
        &self,
        code: &mut Vec<Instruction>,
        scope: &Scope,
        at: usize,
        node: &ExpressionNode,
    ) -> Result<(), AllocError>
        ensures { OnOk result (code.new.items
            ≡ code.old.items ++ expression_code self.now scope.now (expression_of at node.now)) }
    {
        match node {
            ExpressionNode::Number(n) => put(code, Instruction::Push(Value::number(*n))),
            ExpressionNode::Text(text) => {
                put(code, Instruction::Push(Value::shared_text(text.clone()?)))
            }
            ExpressionNode::Bool(b) => put(code, Instruction::Push(Value::bool(*b))),
            ExpressionNode::Null => put(code, Instruction::Push(Value::null())),
            ExpressionNode::Bracket(e) => self.expression(code, scope, e),
            ExpressionNode::Variable(name) => put(code, Instruction::Load(scope.slot(name))),
            ExpressionNode::Call(name, operands) => self.call(code, scope, name, operands),
            ExpressionNode::List(members) => {
                self.expressions(code, scope, members.as_slice())?;
                put(code, Instruction::List(members.len()))
            }
            ExpressionNode::Transact(queries) => {
                self.queries(code, scope, queries.as_slice())?;
                put(code, Instruction::Transact(self.shapes(queries)?))
            }
            ExpressionNode::Unary(operator, e) => {
                self.expression_then(code, scope, e, Instruction::Unary(*operator))
            }
            ExpressionNode::Binary(operator, a, b) => {
                self.expression(code, scope, a)?;
                self.expression_then(code, scope, b, Instruction::Binary(*operator))
            }
            ExpressionNode::And(a, b) => self.and(code, scope, a, b),
            ExpressionNode::Or(a, b) => self.or(code, scope, a, b),
            ExpressionNode::Index(whole, place) => {
                self.expression(code, scope, whole)?;
                self.expression_then(code, scope, place, Instruction::Index)
            }
        }
    }

    /// Writes the code of an expression, and an instruction after it.
    #[cycle(emit)]
    pub(crate) fn expression_then(
        &self,
        code: &mut Vec<Instruction>,
        scope: &Scope,
        e: &Expression,
        instruction: Instruction,
    ) -> Result<(), AllocError>
        ensures { OnOk result (code.new.items ≡ code.old.items
            ++ (expression_code self.now scope.now e.now ++ instruction ∷ [])) }
    {
        self.expression(code, scope, e)?;
        put(code, instruction)
    }

    /// Writes the operands of an `and`, and the jump past the right one before that.
    #[cycle(emit)]
    fn and(
        &self,
        code: &mut Vec<Instruction>,
        scope: &Scope,
        left: &Expression,
        right: &Expression,
    ) -> Result<(), AllocError>
        ensures { OnOk result (code.new.items ≡ code.old.items
            ++ (expression_code self.now scope.now left.now
            ++ jumped instruction.And (expression_code self.now scope.now right.now))) }
    {
        self.expression(code, scope, left)?;
        let jump = code.len();
        put(code, Instruction::And(0))?;
        self.expression(code, scope, right)?;
        let past = Instruction::And(code.len() - jump - 1);
        replace(code, jump, past);
        Ok(())
    }

    /// Writes the operands of an `or`, and the jump past the right one before that.
    #[cycle(emit)]
    fn or(
        &self,
        code: &mut Vec<Instruction>,
        scope: &Scope,
        left: &Expression,
        right: &Expression,
    ) -> Result<(), AllocError>
        ensures { OnOk result (code.new.items ≡ code.old.items
            ++ (expression_code self.now scope.now left.now
            ++ jumped instruction.Or (expression_code self.now scope.now right.now))) }
    {
        self.expression(code, scope, left)?;
        let jump = code.len();
        put(code, Instruction::Or(0))?;
        self.expression(code, scope, right)?;
        let past = Instruction::Or(code.len() - jump - 1);
        replace(code, jump, past);
        Ok(())
    }

    /// Writes the arguments of a call, and the call.
    #[cycle(emit)]
    fn call(
        &self,
        code: &mut Vec<Instruction>,
        scope: &Scope,
        name: &Text,
        operands: &Expressions,
    ) -> Result<(), AllocError>
        ensures { (at : ℕ) → OnOk result (code.new.items ≡ code.old.items ++ expression_code
            self.now scope.now (call at name.now (expressions_of operands.now))) }
    {
        let callee = self.callee(name);
        self.arguments(code, scope, callee.takes_store(), operands.as_slice())?;
        put(code, callee.call(self.alloc, operands.as_slice())?)
    }

    /// Writes the arguments of a call; the bare name of a store is none.
    #[cycle(emit)]
    fn arguments(
        &self,
        code: &mut Vec<Instruction>,
        scope: &Scope,
        takes_store: bool,
        operands: &[Expression],
    ) -> Result<(), AllocError>
        ensures { OnOk result (code.new.items ≡ code.old.items
            ++ arguments_code self.now scope.now takes_store (expressions_of operands.now)) }
    {
        if takes_store {
            match operands.split_first() {
                Some((_store, others)) => self.expressions(code, scope, others),
                None => Ok(()),
            }
        } else {
            self.expressions(code, scope, operands)
        }
    }

    /// Writes the code of these, in order.
    #[cycle(emit)]
    fn expressions(
        &self,
        code: &mut Vec<Instruction>,
        scope: &Scope,
        operands: &[Expression],
    ) -> Result<(), AllocError>
        ensures { OnOk result (code.new.items ≡ code.old.items
            ++ expressions_code self.now scope.now (expressions_of operands.now)) }
    {
        for operand in operands {
            self.expression(code, scope, operand)?;
        }
        Ok(())
    }

    /// Writes the values of the statements of a transaction.
    #[cycle(emit)]
    fn queries(
        &self,
        code: &mut Vec<Instruction>,
        scope: &Scope,
        queries: &[Query],
    ) -> Result<(), AllocError>
        ensures { OnOk result (code.new.items
            ≡ code.old.items ++ queries_code self.now scope.now (queries_of queries.now)) }
    {
        for query in queries {
            self.query(code, scope, query)?;
        }
        Ok(())
    }

    /// Writes the values of a statement of a transaction.
    #[cycle(emit)]
    fn query(
        &self,
        code: &mut Vec<Instruction>,
        scope: &Scope,
        query: &Query,
    ) -> Result<(), AllocError>
        ensures { OnOk result (code.new.items
            ≡ code.old.items ++ query_code self.now scope.now query.now) }
    {
        self.query_node(code, scope, query.at, &query.node)
    }

    #[cycle(emit)]
    fn query_node(
        &self,
        code: &mut Vec<Instruction>,
        scope: &Scope,
        at: usize,
        node: &QueryNode,
    ) -> Result<(), AllocError>
        ensures { OnOk result (code.new.items
            ≡ code.old.items ++ query_code self.now scope.now (query_of at node.now)) }
    {
        match node {
            QueryNode::Insert(_, values) => self.expressions(code, scope, values.as_slice()),
            QueryNode::Select(_, _, conditions) => self.conditions(code, scope, conditions),
            QueryNode::Update(_, assignments, conditions) => {
                self.assignments(code, scope, assignments)?;
                self.conditions(code, scope, conditions)
            }
            QueryNode::Delete(_, conditions) => self.conditions(code, scope, conditions),
            QueryNode::Expect(count, _, conditions) => {
                self.expression(code, scope, count)?;
                self.conditions(code, scope, conditions)
            }
        }
    }

    /// Writes the values of the tests of a `where`.
    #[cycle(emit)]
    fn conditions(
        &self,
        code: &mut Vec<Instruction>,
        scope: &Scope,
        conditions: &Conditions,
    ) -> Result<(), AllocError>
        ensures { OnOk result (code.new.items ≡ code.old.items ++ conditions_code
            self.now scope.now (conditions_of (map condition_of conditions.now))) }
    {
        for condition in conditions.as_slice() {
            self.expression(code, scope, &condition.value)?;
        }
        Ok(())
    }

    /// Writes the values that an `update` sets.
    #[cycle(emit)]
    fn assignments(
        &self,
        code: &mut Vec<Instruction>,
        scope: &Scope,
        assignments: &Assignments,
    ) -> Result<(), AllocError>
        ensures { OnOk result (code.new.items ≡ code.old.items ++ assignments_code
            self.now scope.now (assignments_of (map assignment_of assignments.now))) }
    {
        for assignment in assignments.as_slice() {
            self.expression(code, scope, &assignment.value)?;
        }
        Ok(())
    }
}
