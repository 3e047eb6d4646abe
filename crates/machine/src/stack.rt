ghost use Rattle.std.specs.Prelude.{◌≡◌, ◌∷◌, [], ◌≤◌, length, drop, IfOk, OnOk};
ghost use Rattle.script_code.specs.CodeRun.{topmost};
ghost use Rattle.machine.specs.Gives.{Pops};

use crate::cell::Cell;
use crate::stopped::Stopped;
use script_tree::fault::ScriptFault;
use script_tree::value::Value;
use script_values::Operand;
use std::alloc::{AllocError, Global};
use std::marker::Model;

/// The values that are at hand. Contracts see the topmost first.
#[derive(Drop)]
pub(crate) struct Stack<'c> {
    cells: Vec<Cell<'c>>,
}

impl<'c> Model for Stack<'c> {
    ghost use Rattle.std.specs.Prelude.{List, reverse};
    ghost use Rattle.std.specs.Coded.{coded_list};
    ghost use Rattle.script_tree.specs.Datum.{Datum};
    ghost use Rattle.script_tree.specs.DatumCode.{coded_datum};

    ghost Value = { List Datum };

    ghost coded = { coded_list coded_datum };

    ghost view = { λ a. reverse a.cells.items };
}

impl<'c> Stack<'c> {
    pub(crate) fn new(alloc: Global) -> Stack<'c>
        ensures { result ≡ [] }
    {
        Stack {
            cells: Vec::new(alloc),
        }
    }

    pub(crate) fn clear(&mut self)
        ensures { self.new ≡ [] }
    {
        self.cells.clear();
    }

    #[inline(always)]
    pub(crate) fn push(&mut self, operand: Operand<'c>) -> Result<(), AllocError>
        ensures { OnOk result (self.new ≡ operand.entry ∷ self.old) }
    {
        self.push_cell(Cell::new(operand))
    }

    #[inline(always)]
    pub(crate) fn push_cell(&mut self, cell: Cell<'c>) -> Result<(), AllocError>
        ensures { OnOk result (self.new ≡ cell.entry ∷ self.old) }
    {
        if self.cells.len() == self.cells.capacity() {
            self.cells.reserve(1)?;
        }
        self.cells.push_reserved(cell);
        Ok(())
    }

    /// Takes the topmost value; the kind of values is wrong where there is none.
    #[inline(always)]
    pub(crate) fn pop(&mut self, alloc: Global) -> Result<Operand<'c>, Stopped>
        ensures { Pops self.old self.new result }
    {
        let cell = self.pop_cell()?;
        Ok(cell.into_operand(alloc)?)
    }

    #[inline(always)]
    pub(crate) fn pop_cell(&mut self) -> Result<Cell<'c>, Stopped>
        ensures { Pops self.old self.new result }
    {
        match self.cells.pop() {
            Some(cell) => Ok(cell),
            None => Err(Stopped::Fault(ScriptFault::OutOfSteps)),
        }
    }

    /// Takes so many of the topmost values, the topmost last, or all where there are fewer.
    pub(crate) fn take(&mut self, alloc: Global, count: usize) -> Result<Vec<Value>, AllocError>
        ensures values { IfOk result (λ values. values.items ≡ topmost count self.old []) }
        ensures left { OnOk result (self.new ≡ drop count self.old) }
        ensures fits { length self.old ≤ usize.MAX }
    {
        let room = Vec::with_capacity(alloc, count.min(self.cells.len()))?;
        self.take_into(alloc, count, room)
    }

    /// The same, in the memory of a list whose values are let go.
    pub(crate) fn take_into(
        &mut self,
        alloc: Global,
        count: usize,
        mut values: Vec<Value>,
    ) -> Result<Vec<Value>, AllocError>
        ensures values { IfOk result (λ values. values.items ≡ topmost count self.old []) }
        ensures left { OnOk result (self.new ≡ drop count self.old) }
    {
        match self.move_into(alloc, count, &mut values) {
            Ok(()) => Ok(values),
            Err(error) => {
                drop(values);
                Err(error)
            }
        }
    }

    /// Moves so many into a list, whose values are let go.
    fn move_into(
        &mut self,
        alloc: Global,
        count: usize,
        values: &mut Vec<Value>,
    ) -> Result<(), AllocError>
        ensures values { OnOk result (values.new.items ≡ topmost count self.old []) }
        ensures left { OnOk result (self.new ≡ drop count self.old) }
    {
        values.clear();
        values.reserve(count.min(self.cells.len()))?;
        while values.len() < count {
            let Some(cell) = self.cells.pop() else { break };
            values.push(cell.into_operand(alloc)?.into_value()?)?;
        }
        values.reverse();
        Ok(())
    }
}
