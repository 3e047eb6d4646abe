ghost use Rattle.std.specs.Prelude.{◌≡◌, ℕ, Bool};
ghost use Rattle.script_tree.specs.Declarations.{own, built, unknown};
ghost use Rattle.script_tree.specs.ExpressionView.{expression_of};
ghost use Rattle.script_tree.specs.Syntax.{binary, and_, or_, index as indexed, call};
ghost use Rattle.script_tree.specs.Syntax.{list as listed, transact};
ghost use Rattle.script_tree.specs.Syntax.{Expression as Meant};
ghost use Rattle.script_tree.specs.SyntaxLists.{expressions_of, queries_of};
ghost use Rattle.page_walker.specs.Found.{IsInProgram};
ghost use Rattle.script_check.specs.FoundByName.{function_of};
ghost use Rattle.page_walker.specs.Frames.{value_at, values_at, arguments_at, call_at, entered_at};
ghost use Rattle.page_walker.specs.Gives.{Gives, GivesValue};
ghost use Rattle.page_walker.specs.Rows.{first_of, climbed};

use crate::declared::{Callee, callee_named};
use crate::first::first_operand;
use crate::frame::{Flow, Frame};
use crate::run::{Run, Stopped};
use crate::variables::Variables;
use script_check::lookup::FoundFunction;
use script_meaning::store_names::store_name;
use script_tree::fault::ScriptFault;
use script_tree::limits::MOST_CALL_DEPTH;
use script_tree::syntax::builtin::Builtin;
use script_tree::syntax::expression::{Expression, ExpressionNode, Expressions, Queries};
use script_tree::syntax::operator::BinaryOperator;
use script_tree::text::Text;
use script_tree::value::Value;
use script_values::Operand;

impl Frame<'_, '_, '_> {
    /// The value of an expression.
    #[cycle(walk)]
    pub fn eval(
        &self,
        variables: &Variables,
        run: &mut Run,
        e: &Expression,
    ) -> Result<Value, Stopped>
        ensures { GivesValue result run.new (value_at self.now variables.now e.now run.old) }
    {
        match first_operand(&e.node) {
            None => self.eval_atom(variables, run, e.at, &e.node),
            Some(first) => {
                let value = self.eval_first(variables, run, first)?;
                self.climb(variables, run, e.at, &e.node, value)
            }
        }
    }

    /// The value of an expression. Its first operands lie one in the other: those that wait for the
    /// innermost are in a list, and not on the stack.
    #[cycle(walk)]
    fn eval_first(
        &self,
        variables: &Variables,
        run: &mut Run,
        e: &Expression,
    ) -> Result<Value, Stopped>
        ensures { GivesValue result run.new (value_at self.now variables.now e.now run.old) }
    {
        let mut waiting = Vec::new(self.alloc);
        let mut inner = e;
        while let Some(first) = first_operand(&inner.node) {
            waiting.push(inner)?;
            inner = first;
        }
        let mut value = self.eval_atom(variables, run, inner.at, &inner.node)?;
        while let Some(outer) = waiting.pop() {
            value = self.climb(variables, run, outer.at, &outer.node, value)?;
        }
        Ok(value)
    }

    /// The value of an expression that has no first operand.
    #[cycle(walk)]
    fn eval_atom(
        &self,
        variables: &Variables,
        run: &mut Run,
        at: usize,
        node: &ExpressionNode,
    ) -> Result<Value, Stopped>
        requires { first_of (expression_of at node.now) ≡ None }
        ensures { GivesValue result run.new
            (value_at self.now variables.now (expression_of at node.now) run.old) }
    {
        match node {
            ExpressionNode::Number(n) => run.seen(Value::number(*n)),
            ExpressionNode::Text(text) => run.seen(Value::shared_text(text.clone()?)),
            ExpressionNode::Bool(b) => run.seen(Value::bool(*b)),
            ExpressionNode::Null => run.seen(Value::null()),
            ExpressionNode::Bracket(e) => self.eval(variables, run, e),
            ExpressionNode::Variable(name) => run.seen(variables.value(name)?),
            ExpressionNode::Call(name, operands) => self.eval_call(variables, run, name, operands),
            ExpressionNode::List(members) => self.eval_list(variables, run, members),
            ExpressionNode::Transact(queries) => self.eval_transact(variables, run, queries),
            ExpressionNode::Unary(_, _)
            | ExpressionNode::Binary(_, _, _)
            | ExpressionNode::And(_, _)
            | ExpressionNode::Or(_, _)
            | ExpressionNode::Index(_, _) => unreachable!(),
        }
    }

    /// What a node does with the value of its first operand.
    #[cycle(walk)]
    fn climb(
        &self,
        variables: &Variables,
        run: &mut Run,
        at: usize,
        node: &ExpressionNode,
        value: Value,
    ) -> Result<Value, Stopped>
        ensures { GivesValue result run.new
            (climbed self.now variables.now (expression_of at node.now) value run.old) }
    {
        match node {
            ExpressionNode::Unary(operator, _) => {
                let result = run.node(script_values::unary(*operator, &value));
                drop(value);
                result
            }
            ExpressionNode::Binary(operator, _, b) => {
                self.climb_binary(variables, run, *operator, value, b)
            }
            ExpressionNode::And(_, b) => self.climb_and(variables, run, value, b),
            ExpressionNode::Or(_, b) => self.climb_or(variables, run, value, b),
            ExpressionNode::Index(_, place) => self.climb_index(variables, run, value, place),
            ExpressionNode::Number(_)
            | ExpressionNode::Text(_)
            | ExpressionNode::Bool(_)
            | ExpressionNode::Null
            | ExpressionNode::Bracket(_)
            | ExpressionNode::Variable(_)
            | ExpressionNode::Call(_, _)
            | ExpressionNode::List(_)
            | ExpressionNode::Transact(_) => Ok(value),
        }
    }

    #[cycle(walk)]
    fn climb_binary(
        &self,
        variables: &Variables,
        run: &mut Run,
        operator: BinaryOperator,
        left: Value,
        b: &Expression,
    ) -> Result<Value, Stopped>
        ensures { (at : ℕ) (a : Meant) → GivesValue result run.new
            (climbed self.now variables.now (binary at operator a b.now) left run.old) }
    {
        match self.eval(variables, run, b) {
            Ok(right) => {
                let (left, right) = (Operand::own(left), Operand::own(right));
                run.node(script_values::binary(self.alloc, operator, left, right))
            }
            Err(stopped) => {
                drop(left);
                Err(stopped)
            }
        }
    }

    #[cycle(walk)]
    fn climb_and(
        &self,
        variables: &Variables,
        run: &mut Run,
        left: Value,
        b: &Expression,
    ) -> Result<Value, Stopped>
        ensures { (at : ℕ) (a : Meant) → GivesValue result run.new
            (climbed self.now variables.now (and_ at a b.now) left run.old) }
    {
        match run.decide(&left) {
            Ok(true) => {
                drop(left);
                self.eval(variables, run, b)
            }
            Ok(false) => Ok(left),
            Err(stopped) => {
                drop(left);
                Err(stopped)
            }
        }
    }

    #[cycle(walk)]
    fn climb_or(
        &self,
        variables: &Variables,
        run: &mut Run,
        left: Value,
        b: &Expression,
    ) -> Result<Value, Stopped>
        ensures { (at : ℕ) (a : Meant) → GivesValue result run.new
            (climbed self.now variables.now (or_ at a b.now) left run.old) }
    {
        match run.decide(&left) {
            Ok(true) => Ok(left),
            Ok(false) => {
                drop(left);
                self.eval(variables, run, b)
            }
            Err(stopped) => {
                drop(left);
                Err(stopped)
            }
        }
    }

    #[cycle(walk)]
    fn climb_index(
        &self,
        variables: &Variables,
        run: &mut Run,
        whole: Value,
        b: &Expression,
    ) -> Result<Value, Stopped>
        ensures { (at : ℕ) (a : Meant) → GivesValue result run.new
            (climbed self.now variables.now (indexed at a b.now) whole run.old) }
    {
        match self.eval(variables, run, b) {
            Ok(place) => {
                let result = run.node(script_values::indexed(self.alloc, &whole, &place));
                drop(place);
                drop(whole);
                result
            }
            Err(stopped) => {
                drop(whole);
                Err(stopped)
            }
        }
    }

    #[cycle(walk)]
    fn eval_list(
        &self,
        variables: &Variables,
        run: &mut Run,
        members: &Expressions,
    ) -> Result<Value, Stopped>
        ensures { (at : ℕ) → GivesValue result run.new
            (value_at self.now variables.now (listed at (expressions_of members.now)) run.old) }
    {
        let values = self.eval_all(variables, run, members.as_slice())?;
        run.node(script_values::listed(values))
    }

    #[cycle(walk)]
    fn eval_transact(
        &self,
        variables: &Variables,
        run: &mut Run,
        queries: &Queries,
    ) -> Result<Value, Stopped>
        ensures { (at : ℕ) → GivesValue result run.new
            (value_at self.now variables.now (transact at (queries_of queries.now)) run.old) }
    {
        let statements = self.all_operands(variables, run, queries)?;
        match run.charge() {
            Ok(()) => run.issue_unless_fault(script_values::transact_op(self.alloc, statements)),
            Err(stopped) => {
                drop(statements);
                Err(stopped)
            }
        }
    }

    #[cycle(walk)]
    fn eval_call(
        &self,
        variables: &Variables,
        run: &mut Run,
        name: &Text,
        operands: &Expressions,
    ) -> Result<Value, Stopped>
        ensures { (at : ℕ) → GivesValue result run.new
            (value_at self.now variables.now (call at name.now (expressions_of operands.now))
            run.old) }
    {
        match callee_named(self.walker.index(), name) {
            Callee::Own(function) => self.call_own(variables, run, function, operands),
            Callee::Builtin(builtin) => self.call_builtin(variables, run, builtin, operands),
            Callee::Unknown => self.call_unknown(variables, run, operands),
        }
    }

    /// A call of a function of the program.
    #[cycle(walk)]
    fn call_own(
        &self,
        variables: &Variables,
        run: &mut Run,
        function: FoundFunction,
        operands: &Expressions,
    ) -> Result<Value, Stopped>
        requires { IsInProgram self.now.walker.now.program function }
        ensures { GivesValue result run.new
            (call_at self.now variables.now (own (function_of function.entry)) operands.now
            run.old) }
    {
        let values = self.eval_all(variables, run, operands.as_slice())?;
        match run.charge() {
            Ok(()) => self.enter(run, function, values),
            Err(stopped) => {
                drop(values);
                Err(stopped)
            }
        }
    }

    #[cycle(walk)]
    fn enter(
        &self,
        run: &mut Run,
        function: FoundFunction,
        values: Vec<Value>,
    ) -> Result<Value, Stopped>
        requires { IsInProgram self.now.walker.now.program function }
        ensures { GivesValue result run.new
            (entered_at self.now (function_of function.entry) values.items run.old) }
    {
        if self.depth == MOST_CALL_DEPTH {
            drop(values);
            return Err(Stopped::fault(ScriptFault::TooDeep));
        }
        if self.fuel == 0 {
            drop(values);
            return Err(Stopped::fault(ScriptFault::OutOfSteps));
        }
        let inner = Frame {
            walker: self.walker,
            alloc: self.alloc,
            fuel: self.fuel - 1,
            depth: self.depth + 1,
        };
        let mut variables = Variables::bound(self.alloc, function.parameters, values)?;
        let flow = inner.block(&mut variables, run, function.body);
        drop(variables);
        match flow? {
            Flow::On => Ok(Value::null()),
            Flow::Back(value) => Ok(value),
        }
    }

    #[cycle(walk)]
    fn call_builtin(
        &self,
        variables: &Variables,
        run: &mut Run,
        builtin: Builtin,
        operands: &Expressions,
    ) -> Result<Value, Stopped>
        ensures { GivesValue result run.new
            (call_at self.now variables.now (built builtin) operands.now run.old) }
    {
        let values = self.arguments(variables, run, builtin.takes_store(), operands)?;
        let store = store_name(operands.as_slice());
        let called = run.called(script_values::call_of(
            self.alloc,
            self.walker.request(),
            store,
            builtin,
            values.as_slice(),
        ));
        drop(values);
        called
    }

    #[cycle(walk)]
    fn call_unknown(
        &self,
        variables: &Variables,
        run: &mut Run,
        operands: &Expressions,
    ) -> Result<Value, Stopped>
        ensures { GivesValue result run.new
            (call_at self.now variables.now unknown operands.now run.old) }
    {
        let values = self.eval_all(variables, run, operands.as_slice())?;
        drop(values);
        run.charge()?;
        Err(Stopped::fault(ScriptFault::WrongKind))
    }

    /// The values of a call's arguments; the bare name of a store is none.
    #[cycle(walk)]
    fn arguments(
        &self,
        variables: &Variables,
        run: &mut Run,
        takes_store: bool,
        operands: &Expressions,
    ) -> Result<Vec<Value>, Stopped>
        ensures { Gives (λ v. v.items) result run.new
            (arguments_at self.now variables.now takes_store operands.now run.old) }
    {
        if takes_store {
            match operands.as_slice().split_first() {
                Some((_store, others)) => self.eval_all(variables, run, others),
                None => Ok(Vec::new(self.alloc)),
            }
        } else {
            self.eval_all(variables, run, operands.as_slice())
        }
    }

    /// The values of these, in order.
    #[cycle(walk)]
    pub fn eval_all(
        &self,
        variables: &Variables,
        run: &mut Run,
        operands: &[Expression],
    ) -> Result<Vec<Value>, Stopped>
        ensures { Gives (λ v. v.items) result run.new
            (values_at self.now variables.now operands.now run.old) }
    {
        let mut values = Vec::new(self.alloc);
        for operand in operands {
            values.push(self.eval(variables, run, operand)?)?;
        }
        Ok(values)
    }
}
