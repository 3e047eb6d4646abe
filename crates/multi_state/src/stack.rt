ghost use Rattle.std.specs.Prelude.{◌≡◌, ◌∷◌, [], ℕ, drop, IfOk, OnOk};
ghost use Rattle.script_code.specs.CodeRun.{topmost};
ghost use Rattle.script_nodes.specs.NodeLaws.{without};
ghost use Rattle.multivalue.specs.Many.{member_value};
ghost use Rattle.multi_nodes.specs.Members.{members_at};
ghost use Rattle.multi_state.specs.Stacks.{stack_at};

use multivalue::Multi;
use std::alloc::{AllocError, Global};

/// What is at hand in one place.
#[derive(Drop)]
pub enum Cell {
    Value(Multi),
    /// A list that a loop goes over, and what is left of it, of which so many members were passed:
    /// two values.
    Loop(Multi, usize),
}

/// The values that are at hand, the topmost last.
#[derive(Drop)]
pub struct Stack {
    cells: Vec<Cell>,
}

impl Stack {
    pub fn new(alloc: Global) -> Stack
        ensures { (i : ℕ) → stack_at i result ≡ [] }
    {
        Stack {
            cells: Vec::new(alloc),
        }
    }

    pub fn push(&mut self, values: Multi) -> Result<(), AllocError>
        ensures { OnOk result ((i : ℕ) → stack_at i self.new
            ≡ member_value values i ∷ stack_at i self.old) }
    {
        self.cells.push(Cell::Value(values))?;
        Ok(())
    }

    /// Takes the topmost value. No code lacks it, or takes what is left of a list.
    pub fn pop(&mut self) -> Result<Multi, AllocError>
        ensures { IfOk result (λ values. (i : ℕ) → stack_at i self.old
            ≡ member_value values i ∷ stack_at i self.new) }
    {
        match self.cells.pop() {
            Some(Cell::Value(values)) => Ok(values),
            Some(Cell::Loop(_, _)) | None => Err(AllocError),
        }
    }

    /// Puts a list there, and what is left of it.
    pub fn push_loop(&mut self, lists: Multi, passed: usize) -> Result<(), AllocError>
        ensures { OnOk result ((i : ℕ) → stack_at i self.new
            ≡ without passed (member_value lists i) ∷ member_value lists i ∷ stack_at i self.old) }
    {
        self.cells.push(Cell::Loop(lists, passed))?;
        Ok(())
    }

    /// Takes both, and tells how many members were passed.
    pub fn pop_loop(&mut self) -> Result<(Multi, usize), AllocError>
        ensures { IfOk result (λ (lists, passed). (i : ℕ) → stack_at i self.old
            ≡ without passed (member_value lists i) ∷ member_value lists i ∷ stack_at i self.new) }
    {
        match self.cells.pop() {
            Some(Cell::Loop(lists, passed)) => Ok((lists, passed)),
            Some(Cell::Value(_)) | None => Err(AllocError),
        }
    }

    /// Takes so many of the topmost values, the topmost last.
    pub fn take(&mut self, alloc: Global, count: usize) -> Result<Vec<Multi>, AllocError>
        ensures values { IfOk result (λ values. (i : ℕ) → topmost count (stack_at i self.old) []
            ≡ members_at i values.items) }
        ensures left { OnOk result ((i : ℕ) → drop count (stack_at i self.old)
            ≡ stack_at i self.new) }
    {
        let mut values = Vec::with_capacity(alloc, count.min(self.cells.len()))?;
        while values.len() < count {
            values.push(self.pop()?)?;
        }
        values.reverse();
        Ok(values)
    }
}
