ghost use Rattle.std.specs.Prelude.{◌≡◌, ◌+◌, ℕ, List, length, Ok, IfOk, OnOk};
ghost use Rattle.script_tree.specs.Requests.{Request as Asked};
ghost use Rattle.multi_state.specs.declared.went.Went.TheVariants.{On};
ghost use Rattle.multi_run.specs.Acts.{Acts, Enters, GoesBack, IsLater};
ghost use Rattle.script_code.specs.declared.instruction.Instruction.TheVariants as instruction;

use crate::run::{Frame, Run};
use multi_nodes::{Evaluations, Group};
use multi_state::{Stack, Went};
use multivalue::{Apart, Multi};
use script_nodes::primitive::Primitive;
use script_tree::fault::ScriptFault;
use script_tree::limits::MOST_CALL_DEPTH;
use script_tree::value::Value;
use std::alloc::AllocError;
use std::mem;
use std::sync::ledger::Ledger;

impl Run {
    /// Calls the function of this number with so many arguments.
    pub(crate) fn call<L: Ledger>(
        &mut self,
        functions: &[usize],
        function: usize,
        count: usize,
        group: &Group,
        evaluations: &mut Evaluations<L>,
    ) -> Result<Went, Apart>
        ensures acts { Acts evaluations.old evaluations.new group.now functions.now
            (instruction.Call function count) self.old result self.new }
        ensures later { result ≡ Ok On → IsLater self.old self.new }
    {
        let alloc = self.state.alloc;
        let values = self.state.stack.take(alloc, count)?;
        match self.state.account.value(
            alloc,
            Primitive::Call,
            values.as_slice(),
            group,
            evaluations,
        ) {
            Ok(_values) => self.enter(functions, function, values),
            Err(apart) => Err(apart),
        }
    }

    /// Gives the value back from a function; ends a page.
    pub(crate) fn give_back<L: Ledger>(
        &mut self,
        group: &Group,
        evaluations: &mut Evaluations<L>,
    ) -> Result<Went, Apart>
        ensures acts { (functions : List ℕ) → Acts evaluations.old evaluations.new group.now
            functions instruction.Return self.old result self.new }
        ensures later { result ≡ Ok On → IsLater self.old self.new }
    {
        let alloc = self.state.alloc;
        let operand = self.state.stack.pop()?;
        match self
            .state
            .account
            .value(alloc, Primitive::Pass, &[operand], group, evaluations)
        {
            Ok(values) => Ok(self.back(values)?),
            Err(apart) => Err(apart),
        }
    }

    /// Gives null back from a function.
    pub(crate) fn end(&mut self) -> Result<Went, Apart>
        ensures acts { (n : ℕ) (qs : List Asked) (functions : List ℕ)
            → Acts n n qs functions instruction.End self.old result self.new }
        ensures later { result ≡ Ok On → IsLater self.old self.new }
    {
        Ok(self.back(Multi::all(Value::null()))?)
    }

    /// Goes back to where the call was with a value; without one the page is over.
    fn back(&mut self, values: Multi) -> Result<Went, AllocError>
        ensures back { IfOk result (λ went. GoesBack values self.old went self.new) }
        ensures frames { result ≡ Ok On
            → length self.old.frames.items ≡ length self.new.frames.items + 1 }
    {
        match self.frames.pop() {
            None => Ok(Went::Over),
            Some(frame) => {
                let Frame {
                    place,
                    mut stack,
                    slots,
                } = frame;
                stack.push(values)?;
                self.place = place;
                self.state.stack = stack;
                self.state.slots = slots;
                Ok(Went::On)
            }
        }
    }

    /// Enters a function with these arguments.
    fn enter(
        &mut self,
        functions: &[usize],
        function: usize,
        values: Vec<Multi>,
    ) -> Result<Went, Apart>
        ensures enters { Enters functions.now function values.items self.old result self.new }
        ensures frames { OnOk result
            (length self.new.frames.items ≡ length self.old.frames.items + 1) }
    {
        // No code calls another function.
        let Some(start) = functions.get(function) else {
            return Err(Apart::Memory);
        };
        if self.frames.len() == MOST_CALL_DEPTH as usize {
            return Err(Apart::Fault(ScriptFault::TooDeep));
        }
        let Some(place) = self.place.checked_add(1) else {
            return Err(Apart::Memory);
        };
        let alloc = self.state.alloc;
        let frame = Frame {
            place,
            stack: mem::replace(&mut self.state.stack, Stack::new(alloc)),
            slots: mem::replace(&mut self.state.slots, values),
        };
        self.frames.push(frame)?;
        self.place = *start;
        Ok(Went::On)
    }
}
