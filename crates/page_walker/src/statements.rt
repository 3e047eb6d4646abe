ghost use Rattle.std.specs.Prelude.{◌≡◌, ℕ};
ghost use Rattle.script_tree.specs.Datum.{Datum};
ghost use Rattle.script_tree.specs.StatementView.{statement_of, else_of};
ghost use Rattle.script_tree.specs.Syntax.{let_, set_, if_, while_, for_, echo};
ghost use Rattle.script_tree.specs.Syntax.{status as status_, return, do_};
ghost use Rattle.script_tree.specs.SyntaxLists.{statements_of};
ghost use Rattle.page_walker.specs.Flows.{flow_of};
ghost use Rattle.page_walker.specs.Frames.{statement_at, block_at, scoped_at, else_at, turns_at, turn_at};
ghost use Rattle.page_walker.specs.Gives.{Gives};

use crate::frame::{Flow, Frame};
use crate::run::{Run, Stopped};
use crate::variables::Variables;
use script_tree::fault::ScriptFault;
use script_tree::syntax::expression::Expression;
use script_tree::syntax::name::Name;
use script_tree::syntax::statement::{Block, Else, Statement, StatementNode};
use script_tree::value::Value;
use script_values::as_list;

impl Frame<'_, '_, '_> {
    /// Runs the statements of a block.
    #[cycle(walk)]
    pub fn block(
        &self,
        variables: &mut Variables,
        run: &mut Run,
        body: &Block,
    ) -> Result<Flow, Stopped>
        ensures { Gives (flow_of variables.new) result run.new
            (block_at self.now body.now variables.old run.old) }
    {
        for statement in body.as_slice() {
            match self.exec(variables, run, statement)? {
                Flow::On => {}
                Flow::Back(value) => return Ok(Flow::Back(value)),
            }
        }
        Ok(Flow::On)
    }

    /// The same, and what the block declared ends with it.
    #[cycle(walk)]
    fn scoped(
        &self,
        variables: &mut Variables,
        run: &mut Run,
        body: &Block,
    ) -> Result<Flow, Stopped>
        ensures { Gives (flow_of variables.new) result run.new
            (scoped_at self.now body.now variables.old run.old) }
    {
        let kept = variables.len();
        let flow = self.block(variables, run, body)?;
        variables.truncate(kept);
        Ok(flow)
    }

    #[cycle(walk)]
    fn exec(&self, variables: &mut Variables, run: &mut Run, s: &Statement) -> Result<Flow, Stopped>
        ensures { Gives (flow_of variables.new) result run.new
            (statement_at self.now s.now variables.old run.old) }
    {
        self.exec_node(variables, run, s.at, &s.node)
    }

    #[cycle(walk)]
    fn exec_node(
        &self,
        variables: &mut Variables,
        run: &mut Run,
        at: usize,
        node: &StatementNode,
    ) -> Result<Flow, Stopped>
        ensures { Gives (flow_of variables.new) result run.new
            (statement_at self.now (statement_of at node.now) variables.old run.old) }
    {
        match node {
            StatementNode::Let(x, e) => self.exec_let(variables, run, x, e),
            StatementNode::Set(x, e) => self.exec_set(variables, run, x, e),
            StatementNode::If(e, body, other) => self.exec_if(variables, run, e, body, other),
            StatementNode::While(e, body) => self.exec_while(variables, run, e, body),
            StatementNode::For(x, e, body) => self.exec_for(variables, run, x, e, body),
            StatementNode::Echo(e) => self.exec_echo(variables, run, e),
            StatementNode::Status(e) => self.exec_status(variables, run, e),
            StatementNode::Return(e) => self.exec_return(variables, run, e),
            StatementNode::Do(e) => self.exec_do(variables, run, e),
        }
    }

    #[cycle(walk)]
    fn exec_let(
        &self,
        variables: &mut Variables,
        run: &mut Run,
        x: &Name,
        e: &Expression,
    ) -> Result<Flow, Stopped>
        ensures { (at : ℕ) → Gives (flow_of variables.new) result run.new
            (statement_at self.now (let_ at x.now e.now) variables.old run.old) }
    {
        let value = self.eval(variables, run, e)?;
        let value = run.seen(value)?;
        variables.declare(&x.text, value)?;
        Ok(Flow::On)
    }

    #[cycle(walk)]
    fn exec_set(
        &self,
        variables: &mut Variables,
        run: &mut Run,
        x: &Name,
        e: &Expression,
    ) -> Result<Flow, Stopped>
        ensures { (at : ℕ) → Gives (flow_of variables.new) result run.new
            (statement_at self.now (set_ at x.now e.now) variables.old run.old) }
    {
        let value = self.eval(variables, run, e)?;
        let value = run.seen(value)?;
        variables.assign(&x.text, value);
        Ok(Flow::On)
    }

    #[cycle(walk)]
    fn exec_if(
        &self,
        variables: &mut Variables,
        run: &mut Run,
        e: &Expression,
        body: &Block,
        other: &Else,
    ) -> Result<Flow, Stopped>
        ensures { (at : ℕ) → Gives (flow_of variables.new) result run.new
            (statement_at self.now (if_ at e.now (statements_of body.now) (else_of other.now))
            variables.old run.old) }
    {
        let value = self.eval(variables, run, e)?;
        let holds = run.decide(&value);
        drop(value);
        if holds? {
            self.scoped(variables, run, body)
        } else {
            self.exec_else(variables, run, other)
        }
    }

    #[cycle(walk)]
    fn exec_else(
        &self,
        variables: &mut Variables,
        run: &mut Run,
        other: &Else,
    ) -> Result<Flow, Stopped>
        ensures { Gives (flow_of variables.new) result run.new
            (else_at self.now (else_of other.now) variables.old run.old) }
    {
        match other {
            Else::None => Ok(Flow::On),
            Else::Block(body) => self.scoped(variables, run, body),
        }
    }

    #[cycle(walk)]
    fn exec_while(
        &self,
        variables: &mut Variables,
        run: &mut Run,
        e: &Expression,
        body: &Block,
    ) -> Result<Flow, Stopped>
        ensures { (at : ℕ) → Gives (flow_of variables.new) result run.new
            (statement_at self.now (while_ at e.now (statements_of body.now))
            variables.old run.old) }
    {
        let mut left = self.fuel;
        loop {
            let frame = Frame {
                walker: self.walker,
                alloc: self.alloc,
                fuel: left,
                depth: self.depth,
            };
            let value = frame.eval(variables, run, e)?;
            let holds = run.decide(&value);
            drop(value);
            if !holds? {
                return Ok(Flow::On);
            }
            match frame.scoped(variables, run, body)? {
                Flow::On => {}
                Flow::Back(value) => return Ok(Flow::Back(value)),
            }
            if left == 0 {
                return Err(Stopped::fault(ScriptFault::OutOfSteps));
            }
            left -= 1;
        }
    }

    #[cycle(walk)]
    fn exec_for(
        &self,
        variables: &mut Variables,
        run: &mut Run,
        x: &Name,
        e: &Expression,
        body: &Block,
    ) -> Result<Flow, Stopped>
        ensures { (at : ℕ) → Gives (flow_of variables.new) result run.new
            (statement_at self.now (for_ at x.now e.now (statements_of body.now))
            variables.old run.old) }
    {
        let whole = self.eval(variables, run, e)?;
        match as_list(&whole) {
            Some(values) => {
                let flow = self.turns(variables, run, x, values.as_slice(), body);
                drop(whole);
                flow
            }
            None => {
                drop(whole);
                run.charge()?;
                Err(Stopped::fault(ScriptFault::WrongKind))
            }
        }
    }

    /// A turn of a `for` with each of these values.
    #[cycle(walk)]
    fn turns(
        &self,
        variables: &mut Variables,
        run: &mut Run,
        x: &Name,
        values: &[Value],
        body: &Block,
    ) -> Result<Flow, Stopped>
        ensures { (whole : Datum) → Gives (flow_of variables.new) result run.new
            (turns_at self.now whole x.now.text body.now variables.old values.now run.old) }
    {
        for value in values {
            run.decide_so(true)?;
            match self.turn(variables, run, x, value, body)? {
                Flow::On => {}
                Flow::Back(value) => return Ok(Flow::Back(value)),
            }
        }
        run.decide_so(false)?;
        Ok(Flow::On)
    }

    /// The body of a `for`, with this value in its variable.
    #[cycle(walk)]
    fn turn(
        &self,
        variables: &mut Variables,
        run: &mut Run,
        x: &Name,
        value: &Value,
        body: &Block,
    ) -> Result<Flow, Stopped>
        ensures { Gives (flow_of variables.new) result run.new
            (turn_at self.now x.now.text value.now body.now variables.old run.old) }
    {
        let kept = variables.len();
        variables.declare_copy(&x.text, value)?;
        let flow = self.block(variables, run, body)?;
        variables.truncate(kept);
        Ok(flow)
    }

    #[cycle(walk)]
    fn exec_echo(
        &self,
        variables: &Variables,
        run: &mut Run,
        e: &Expression,
    ) -> Result<Flow, Stopped>
        ensures { (at : ℕ) → Gives (flow_of variables.now) result run.new
            (statement_at self.now (echo at e.now) variables.now run.old) }
    {
        let value = self.eval(variables, run, e)?;
        let value = run.seen(value)?;
        let printed = run.print_value(self.alloc, &value);
        drop(value);
        printed?;
        Ok(Flow::On)
    }

    #[cycle(walk)]
    fn exec_status(
        &self,
        variables: &Variables,
        run: &mut Run,
        e: &Expression,
    ) -> Result<Flow, Stopped>
        ensures { (at : ℕ) → Gives (flow_of variables.now) result run.new
            (statement_at self.now (status_ at e.now) variables.now run.old) }
    {
        let value = self.eval(variables, run, e)?;
        let value = run.seen(value)?;
        let kept = run.set_status(&value);
        drop(value);
        kept?;
        Ok(Flow::On)
    }

    #[cycle(walk)]
    fn exec_return(
        &self,
        variables: &Variables,
        run: &mut Run,
        e: &Expression,
    ) -> Result<Flow, Stopped>
        ensures { (at : ℕ) → Gives (flow_of variables.now) result run.new
            (statement_at self.now (return at e.now) variables.now run.old) }
    {
        let value = self.eval(variables, run, e)?;
        Ok(Flow::Back(run.seen(value)?))
    }

    #[cycle(walk)]
    fn exec_do(&self, variables: &Variables, run: &mut Run, e: &Expression) -> Result<Flow, Stopped>
        ensures { (at : ℕ) → Gives (flow_of variables.now) result run.new
            (statement_at self.now (do_ at e.now) variables.now run.old) }
    {
        let value = self.eval(variables, run, e)?;
        drop(run.seen(value)?);
        Ok(Flow::On)
    }
}
