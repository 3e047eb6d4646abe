ghost use Rattle.std.specs.Prelude.{◌≡◌, ◌+◌, slice_index_or, IfOk, OnOk};
ghost use Rattle.script_tree.specs.Datum.{null};
ghost use Rattle.multivalue.specs.Many.{all};
ghost use Rattle.multi_state.specs.Does.{Does, Puts};
ghost use Rattle.script_code.specs.declared.instruction.Instruction.TheVariants as instruction;

use crate::account::Account;
use crate::given::Given;
use crate::stack::Stack;
use crate::went::Went;
use multi_nodes::{Evaluations, Group};
use multivalue::{Apart, Multi};
use script_code::instruction::Shape;
use script_nodes::filling::all_taken;
use script_nodes::primitive::Primitive;
use script_tree::syntax::builtin::Builtin;
use script_tree::syntax::operator::{BinaryOperator, UnaryOperator};
use script_tree::text::Text;
use script_tree::value::Value;
use std::alloc::{AllocError, Global};
use std::sync::ledger::Ledger;

/// What the function that runs has at hand for each member, and what each spent and did. Its methods
/// do the instructions after which the next one is done.
#[derive(Drop)]
pub struct State {
    pub alloc: Global,
    pub stack: Stack,
    /// The variables.
    pub slots: Vec<Multi>,
    pub account: Account,
}

impl State {
    /// Puts what a node gives on the stack.
    fn put<L: Ledger>(
        &mut self,
        primitive: Primitive,
        operands: &[Multi],
        group: &Group,
        evaluations: &mut Evaluations<L>,
    ) -> Result<Went, Apart>
        ensures puts { Puts evaluations.old evaluations.new group.now primitive.entry operands.now
            self.old result self.new }
        ensures charges { OnOk result (self.new.account.steps ≡ self.old.account.steps + 1) }
    {
        match self
            .account
            .node(self.alloc, primitive, operands, group, evaluations)
        {
            Ok(Given::Values(values)) => {
                self.stack.push(values)?;
                Ok(Went::On)
            }
            Ok(Given::Wants(ops)) => Ok(Went::Wants(ops)),
            Err(apart) => Err(apart),
        }
    }

    /// Puts a literal on the stack.
    pub(crate) fn push<L: Ledger>(
        &mut self,
        value: &Value,
        group: &Group,
        evaluations: &mut Evaluations<L>,
    ) -> Result<Went, Apart>
        ensures does { Does evaluations.old evaluations.new group.now (instruction.Push value.now)
            self.old result self.new }
        ensures charges { OnOk result (self.new.account.steps ≡ self.old.account.steps + 1) }
    {
        self.put(Primitive::Literal(value), &[], group, evaluations)
    }

    /// Puts the value of a slot on the stack.
    pub(crate) fn load<L: Ledger>(
        &mut self,
        slot: usize,
        group: &Group,
        evaluations: &mut Evaluations<L>,
    ) -> Result<Went, Apart>
        ensures does { Does evaluations.old evaluations.new group.now (instruction.Load slot)
            self.old result self.new }
        ensures charges { OnOk result (self.new.account.steps ≡ self.old.account.steps + 1) }
    {
        let values = values_in(self.slots.as_slice(), slot)?;
        self.put(Primitive::Pass, &[values], group, evaluations)
    }

    pub(crate) fn unary<L: Ledger>(
        &mut self,
        operator: UnaryOperator,
        group: &Group,
        evaluations: &mut Evaluations<L>,
    ) -> Result<Went, Apart>
        ensures does { Does evaluations.old evaluations.new group.now (instruction.Unary operator)
            self.old result self.new }
        ensures charges { OnOk result (self.new.account.steps ≡ self.old.account.steps + 1) }
    {
        let operand = self.stack.pop()?;
        self.put(Primitive::Unary(operator), &[operand], group, evaluations)
    }

    pub(crate) fn binary<L: Ledger>(
        &mut self,
        operator: BinaryOperator,
        group: &Group,
        evaluations: &mut Evaluations<L>,
    ) -> Result<Went, Apart>
        ensures does { Does evaluations.old evaluations.new group.now (instruction.Binary operator)
            self.old result self.new }
        ensures charges { OnOk result (self.new.account.steps ≡ self.old.account.steps + 1) }
    {
        let right = self.stack.pop()?;
        let left = self.stack.pop()?;
        self.put(
            Primitive::Binary(operator),
            &[left, right],
            group,
            evaluations,
        )
    }

    pub(crate) fn index<L: Ledger>(
        &mut self,
        group: &Group,
        evaluations: &mut Evaluations<L>,
    ) -> Result<Went, Apart>
        ensures does { Does evaluations.old evaluations.new group.now instruction.Index
            self.old result self.new }
        ensures charges { OnOk result (self.new.account.steps ≡ self.old.account.steps + 1) }
    {
        let place = self.stack.pop()?;
        let whole = self.stack.pop()?;
        self.put(Primitive::Index, &[whole, place], group, evaluations)
    }

    /// Makes a list of so many values.
    pub(crate) fn list<L: Ledger>(
        &mut self,
        count: usize,
        group: &Group,
        evaluations: &mut Evaluations<L>,
    ) -> Result<Went, Apart>
        ensures does { Does evaluations.old evaluations.new group.now (instruction.List count)
            self.old result self.new }
        ensures charges { OnOk result (self.new.account.steps ≡ self.old.account.steps + 1) }
    {
        let values = self.stack.take(self.alloc, count)?;
        self.put(Primitive::List, values.as_slice(), group, evaluations)
    }

    /// Calls a built-in function with so many arguments.
    pub(crate) fn call_builtin<L: Ledger>(
        &mut self,
        builtin: Builtin,
        count: usize,
        group: &Group,
        evaluations: &mut Evaluations<L>,
    ) -> Result<Went, Apart>
        ensures does { Does evaluations.old evaluations.new group.now
            (instruction.CallBuiltin builtin count) self.old result self.new }
        ensures charges { OnOk result (self.new.account.steps ≡ self.old.account.steps + 1) }
    {
        let values = self.stack.take(self.alloc, count)?;
        let primitive = Primitive::Builtin(builtin);
        self.put(primitive, values.as_slice(), group, evaluations)
    }

    /// Calls a built-in function on the store of this name, with so many arguments more.
    pub(crate) fn call_store<L: Ledger>(
        &mut self,
        builtin: Builtin,
        store: &Text,
        count: usize,
        group: &Group,
        evaluations: &mut Evaluations<L>,
    ) -> Result<Went, Apart>
        ensures does { Does evaluations.old evaluations.new group.now
            (instruction.CallStore builtin store.now count) self.old result self.new }
        ensures charges { OnOk result (self.new.account.steps ≡ self.old.account.steps + 1) }
    {
        let values = self.stack.take(self.alloc, count)?;
        let primitive = Primitive::OnStore(builtin, store);
        self.put(primitive, values.as_slice(), group, evaluations)
    }

    /// Issues the transaction of these statements, with their values.
    pub(crate) fn transact<L: Ledger>(
        &mut self,
        shapes: &[Shape],
        group: &Group,
        evaluations: &mut Evaluations<L>,
    ) -> Result<Went, Apart>
        ensures does { Does evaluations.old evaluations.new group.now
            (instruction.Transact shapes.now) self.old result self.new }
        ensures charges { OnOk result (self.new.account.steps ≡ self.old.account.steps + 1) }
    {
        let count = all_taken(shapes);
        if count == usize::MAX {
            // So many have no room in memory.
            return Err(Apart::Memory);
        }
        let values = self.stack.take(self.alloc, count)?;
        let primitive = Primitive::Transact(shapes);
        self.put(primitive, values.as_slice(), group, evaluations)
    }
}

/// The values of a slot; null where it isn't there.
fn values_in(slots: &[Multi], slot: usize) -> Result<Multi, AllocError>
    ensures { IfOk result (λ values. values ≡ slice_index_or slots.now slot (all null)) }
{
    match slots.get(slot) {
        Some(values) => values.clone(),
        None => Ok(Multi::all(Value::null())),
    }
}
