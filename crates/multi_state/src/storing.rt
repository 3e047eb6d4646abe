ghost use Rattle.std.specs.Prelude.{◌≡◌, ◌+◌, ◌∷◌, [], ℕ, List, slice_set, OnOk};
ghost use Rattle.script_tree.specs.Requests.{Request as Asked};
ghost use Rattle.multi_state.specs.AllDo.{ValuesDo};
ghost use Rattle.multi_state.specs.Does.{Does};
ghost use Rattle.script_code.specs.declared.instruction.Instruction.TheVariants as instruction;

use crate::state::State;
use crate::went::Went;
use multi_nodes::{Evaluations, Group};
use multivalue::{Apart, Multi};
use script_nodes::primitive::Primitive;
use std::sync::ledger::Ledger;

impl State {
    /// A node of these operands that is no operation.
    fn value<L: Ledger>(
        &mut self,
        primitive: Primitive,
        operands: &[Multi],
        group: &Group,
        evaluations: &mut Evaluations<L>,
    ) -> Result<Multi, Apart>
        ensures does { ValuesDo evaluations.old evaluations.new group.now primitive.entry
            operands.now self.old.account result self.new.account }
        ensures charges { OnOk result (self.new.account.steps ≡ self.old.account.steps + 1) }
        ensures stack { self.new.stack ≡ self.old.stack }
        ensures slots { self.new.slots ≡ self.old.slots }
    {
        self.account
            .value(self.alloc, primitive, operands, group, evaluations)
    }

    /// A node of this one operand that is no operation.
    fn value_of<L: Ledger>(
        &mut self,
        primitive: Primitive,
        operand: Multi,
        group: &Group,
        evaluations: &mut Evaluations<L>,
    ) -> Result<Multi, Apart>
        ensures does { ValuesDo evaluations.old evaluations.new group.now primitive.entry
            (operand ∷ []) self.old.account result self.new.account }
        ensures charges { OnOk result (self.new.account.steps ≡ self.old.account.steps + 1) }
        ensures stack { self.new.stack ≡ self.old.stack }
        ensures slots { self.new.slots ≡ self.old.slots }
    {
        let operands = [operand];
        let values = self.value(primitive, &operands, group, evaluations);
        drop(operands);
        values
    }

    /// Puts the value in a slot of its own.
    pub(crate) fn declare<L: Ledger>(
        &mut self,
        group: &Group,
        evaluations: &mut Evaluations<L>,
    ) -> Result<Went, Apart>
        ensures does { Does evaluations.old evaluations.new group.now instruction.Declare
            self.old result self.new }
        ensures charges { OnOk result (self.new.account.steps ≡ self.old.account.steps + 1) }
    {
        let operand = self.stack.pop()?;
        match self.value_of(Primitive::Pass, operand, group, evaluations) {
            Ok(values) => {
                self.slots.push(values)?;
                Ok(Went::On)
            }
            Err(apart) => Err(apart),
        }
    }

    /// Puts the value in this slot.
    pub(crate) fn assign<L: Ledger>(
        &mut self,
        slot: usize,
        group: &Group,
        evaluations: &mut Evaluations<L>,
    ) -> Result<Went, Apart>
        ensures does { Does evaluations.old evaluations.new group.now (instruction.Assign slot)
            self.old result self.new }
        ensures charges { OnOk result (self.new.account.steps ≡ self.old.account.steps + 1) }
    {
        let operand = self.stack.pop()?;
        match self.value_of(Primitive::Pass, operand, group, evaluations) {
            Ok(values) => {
                self.keep(slot, values);
                Ok(Went::On)
            }
            Err(apart) => Err(apart),
        }
    }

    /// Puts values in this slot, if there is one.
    fn keep(&mut self, slot: usize, values: Multi)
        ensures slots { self.new.slots.items ≡ slice_set self.old.slots.items slot values }
        ensures stack { self.new.stack ≡ self.old.stack }
        ensures account { self.new.account ≡ self.old.account }
    {
        if slot < self.slots.len() {
            self.slots[slot] = values;
        }
    }

    pub(crate) fn discard<L: Ledger>(
        &mut self,
        group: &Group,
        evaluations: &mut Evaluations<L>,
    ) -> Result<Went, Apart>
        ensures does { Does evaluations.old evaluations.new group.now instruction.Discard
            self.old result self.new }
        ensures charges { OnOk result (self.new.account.steps ≡ self.old.account.steps + 1) }
    {
        let operand = self.stack.pop()?;
        match self.value_of(Primitive::Pass, operand, group, evaluations) {
            Ok(values) => {
                drop(values);
                Ok(Went::On)
            }
            Err(apart) => Err(apart),
        }
    }

    pub(crate) fn echo<L: Ledger>(
        &mut self,
        group: &Group,
        evaluations: &mut Evaluations<L>,
    ) -> Result<Went, Apart>
        ensures does { Does evaluations.old evaluations.new group.now instruction.Echo
            self.old result self.new }
        ensures charges { OnOk result (self.new.account.steps ≡ self.old.account.steps + 1) }
    {
        let alloc = self.alloc;
        let operand = self.stack.pop()?;
        match self.value_of(Primitive::Echo, operand, group, evaluations) {
            Ok(texts) => match self.account.print(alloc, texts, group.requests().len()) {
                Ok(()) => Ok(Went::On),
                Err(apart) => Err(apart),
            },
            Err(apart) => Err(apart),
        }
    }

    pub(crate) fn status<L: Ledger>(
        &mut self,
        group: &Group,
        evaluations: &mut Evaluations<L>,
    ) -> Result<Went, Apart>
        ensures does { Does evaluations.old evaluations.new group.now instruction.Status
            self.old result self.new }
        ensures charges { OnOk result (self.new.account.steps ≡ self.old.account.steps + 1) }
    {
        let operand = self.stack.pop()?;
        match self.value_of(Primitive::Status, operand, group, evaluations) {
            Ok(statuses) => match self.account.set_status(statuses, group.requests().len()) {
                Ok(()) => Ok(Went::On),
                Err(apart) => Err(apart),
            },
            Err(apart) => Err(apart),
        }
    }

    /// Calls a name that nothing has.
    pub(crate) fn call_unknown<L: Ledger>(
        &mut self,
        count: usize,
        group: &Group,
        evaluations: &mut Evaluations<L>,
    ) -> Result<Went, Apart>
        ensures does { Does evaluations.old evaluations.new group.now
            (instruction.CallUnknown count) self.old result self.new }
        ensures charges { OnOk result (self.new.account.steps ≡ self.old.account.steps + 1) }
    {
        let values = self.stack.take(self.alloc, count)?;
        match self.value(Primitive::Unknown, values.as_slice(), group, evaluations) {
            // It has no value.
            Ok(_values) => Err(Apart::Memory),
            Err(apart) => Err(apart),
        }
    }

    /// Leaves so many slots.
    pub(crate) fn leave(&mut self, count: usize) -> Result<Went, Apart>
        ensures does { (n : ℕ) (qs : List Asked) → Does n n qs (instruction.Leave count)
            self.old result self.new }
        ensures account { self.new.account ≡ self.old.account }
    {
        self.slots.truncate(count);
        Ok(Went::On)
    }
}
