ghost use Rattle.std.specs.Prelude.{◌≡◌, ◌+◌, ◌∷◌, ◌++◌, [], ℕ, List, drop, slice_set};
ghost use Rattle.std.specs.Prelude.{Some, IfErr, IfOk, OnOk};
ghost use Rattle.basis.specs.UnlessMemory.{Answers};
ghost use Rattle.script_tree.specs.Datum.{Datum};
ghost use Rattle.script_tree.specs.Requests.{Request as Asked};
ghost use Rattle.script_meaning.specs.BuiltinCalls.{Call};
ghost use Rattle.script_meaning.specs.Operations.{Op as Operation};
ghost use Rattle.script_meaning.specs.Run.{goes};
ghost use Rattle.script_values.specs.CallsMade.{made};
ghost use Rattle.script_code.specs.CodeRun.{Frame, Next, step, topmost};
ghost use Rattle.machine.specs.Gives.{Pops, Stops, progress_of, spend};
ghost use Rattle.machine.specs.Does.{Does, DoesBoth, DoesFor, Issues, Calls, Rises};
ghost use Rattle.script_code.specs.declared.instruction.Instruction.TheVariants as instruction;

use crate::account::Account;
use crate::cell::Cell;
use crate::stack::Stack;
use crate::stopped::{Stopped, Wanted, Went};
use script_code::instruction::Shape;
use script_nodes::filling::{all_filled, all_taken};
use script_tree::fault::ScriptFault;
use script_tree::operation::Op;
use script_tree::request::Request;
use script_tree::syntax::builtin::Builtin;
use script_tree::syntax::operator::{BinaryOperator, UnaryOperator};
use script_tree::value::Value;
use script_values::{Called, Faulted, Operand};
use std::alloc::{AllocError, Global};
use std::mem;

/// What the function that runs has at hand, and what the run spent and did. Its methods do the
/// instructions after which the next one is done.
#[derive(Drop)]
pub(crate) struct State<'c> {
    pub(crate) alloc: Global,
    pub(crate) stack: Stack<'c>,
    /// The variables.
    pub(crate) slots: Vec<Value>,
    pub(crate) account: Account,
    /// Memory for the arguments of the next call of a built-in function: an empty list.
    pub(crate) room: Vec<Value>,
}

impl<'c> State<'c> {
    /// Puts a literal on the stack.
    #[inline(always)]
    pub(crate) fn push(&mut self, value: &'c Value) -> Result<Went, Stopped>
        ensures does { Does (instruction.Push value.now) self.old result self.new }
        ensures rises { Rises self.old result self.new }
    {
        self.account.charge()?;
        self.stack.push(Operand::lent(value))?;
        Ok(Went::On)
    }

    /// Puts the value of a slot on the stack.
    #[inline(always)]
    pub(crate) fn load(&mut self, slot: usize) -> Result<Went, Stopped>
        ensures does { Does (instruction.Load slot) self.old result self.new }
        ensures rises { Rises self.old result self.new }
    {
        self.account.charge()?;
        let value = match self.slots.get(slot) {
            Some(value) => value.clone()?,
            None => Value::null(),
        };
        self.stack.push(Operand::own(value))?;
        Ok(Went::On)
    }

    #[inline(never)]
    pub(crate) fn unary(&mut self, operator: UnaryOperator) -> Result<Went, Stopped>
        ensures does { Does (instruction.Unary operator) self.old result self.new }
        ensures rises { Rises self.old result self.new }
    {
        let operand = self.pop()?;
        let done = self.unary_of(operator, operand.value());
        drop(operand);
        done
    }

    /// Does a unary operator on a value that was taken.
    #[inline(always)]
    fn unary_of(&mut self, operator: UnaryOperator, operand: &Value) -> Result<Went, Stopped>
        ensures does { Does (instruction.Unary operator)
            (record self.old { stack = operand.now ∷ self.old.stack }) result self.new }
        ensures rises { Rises self.old result self.new }
    {
        self.account.charge()?;
        let value = script_values::unary(operator, operand)?;
        self.stack.push(Operand::own(value))?;
        Ok(Went::On)
    }

    #[inline(always)]
    pub(crate) fn binary(&mut self, operator: BinaryOperator) -> Result<Went, Stopped>
        ensures does { Does (instruction.Binary operator) self.old result self.new }
        ensures rises { Rises self.old result self.new }
    {
        let (left, right) = self.pop_two()?;
        let value = script_values::binary(self.alloc, operator, left, right)?;
        self.stack.push(Operand::own(value))?;
        Ok(Went::On)
    }

    /// Takes the two operands of an operator, the topmost last, and spends its step.
    #[inline(always)]
    fn pop_two(&mut self) -> Result<(Operand<'c>, Operand<'c>), Stopped>
        ensures two { IfOk result (λ r. self.old.stack ≡ r.1 ∷ r.0 ∷ self.new.stack) }
        ensures slots { self.new.slots ≡ self.old.slots }
        ensures spends { OnOk result ((ops : List Operation) (more : List Datum)
            → spend (progress_of self.old.account ops more)
            ≡ goes tt (progress_of self.new.account ops more)) }
        ensures steps { OnOk result
            (self.new.account.steps ≡ self.old.account.steps + 1) }
        ensures stops { (operator : BinaryOperator) (q : Asked) (functions : List ℕ) (next : Next)
            (frames : List Frame) (place : ℕ) (ops : List Operation) (more : List Datum)
            → IfErr result (λ e. Stops e (progress_of self.new.account ops more)
            (step q functions (Some (instruction.Binary operator)) next frames place
            self.old.stack self.old.slots.items (progress_of self.old.account ops more))) }
    {
        let right = self.pop()?;
        let left = match self.pop() {
            Ok(left) => left,
            Err(stopped) => {
                drop(right);
                return Err(stopped);
            }
        };
        if let Err(stopped) = self.account.charge() {
            drop(left);
            drop(right);
            return Err(stopped);
        }
        Ok((left, right))
    }

    /// Puts a literal on the stack, and does a binary operator: the literal is its right operand.
    #[inline(always)]
    pub(crate) fn push_and_binary(
        &mut self,
        value: &'c Value,
        operator: BinaryOperator,
    ) -> Result<Went, Stopped>
        ensures does { DoesBoth (instruction.Push value.now) (instruction.Binary operator)
            self.old result self.new }
        ensures rises { Rises self.old result self.new }
    {
        self.account.charge()?;
        let left = self.pop()?;
        if let Err(stopped) = self.account.charge() {
            drop(left);
            return Err(stopped);
        }
        let value = script_values::binary(self.alloc, operator, left, Operand::lent(value))?;
        self.stack.push(Operand::own(value))?;
        Ok(Went::On)
    }

    /// The same with the value of a slot in place of a literal.
    #[inline(always)]
    pub(crate) fn load_and_binary(
        &mut self,
        slot: usize,
        operator: BinaryOperator,
    ) -> Result<Went, Stopped>
        ensures does { DoesBoth (instruction.Load slot) (instruction.Binary operator)
            self.old result self.new }
        ensures rises { Rises self.old result self.new }
    {
        self.account.charge()?;
        let left = self.pop()?;
        if let Err(stopped) = self.account.charge() {
            drop(left);
            return Err(stopped);
        }
        let right = match self.slots.get(slot) {
            Some(value) => Operand::lent(value),
            None => Operand::own(Value::null()),
        };
        let value = script_values::binary(self.alloc, operator, left, right)?;
        self.stack.push(Operand::own(value))?;
        Ok(Went::On)
    }

    /// Does a binary operator, and puts its value in this slot. What was there is let go before, so
    /// that a text or a list grows in its place.
    #[inline(never)]
    pub(crate) fn update(&mut self, operator: BinaryOperator, slot: usize) -> Result<Went, Stopped>
        ensures does { DoesBoth (instruction.Binary operator) (instruction.Assign slot)
            self.old result self.new }
        ensures rises { Rises self.old result self.new }
    {
        let (left, right) = self.pop_two()?;
        self.let_go(slot);
        let value = script_values::binary(self.alloc, operator, left, right)?;
        self.put(slot, value);
        self.account.charge()?;
        Ok(Went::On)
    }

    /// Lets go of the value in this slot.
    #[inline(always)]
    fn let_go(&mut self, slot: usize)
        ensures slots { (d : Datum) → slice_set self.new.slots.items slot d
            ≡ slice_set self.old.slots.items slot d }
        ensures stack { self.new.stack ≡ self.old.stack }
        ensures account { self.new.account ≡ self.old.account }
    {
        self.put(slot, Value::null());
    }

    /// Puts a value in this slot, if there is one.
    #[inline(always)]
    fn put(&mut self, slot: usize, value: Value)
        ensures slots { self.new.slots.items ≡ slice_set self.old.slots.items slot value }
        ensures stack { self.new.stack ≡ self.old.stack }
        ensures account { self.new.account ≡ self.old.account }
    {
        if slot < self.slots.len() {
            self.slots[slot] = value;
        }
    }

    #[inline(never)]
    pub(crate) fn index(&mut self) -> Result<Went, Stopped>
        ensures does { Does instruction.Index self.old result self.new }
        ensures rises { Rises self.old result self.new }
    {
        let place = self.pop()?;
        let done = self.index_at(place.value());
        drop(place);
        done
    }

    /// Does an index by a value that was taken.
    #[inline(always)]
    fn index_at(&mut self, place: &Value) -> Result<Went, Stopped>
        ensures does { Does instruction.Index
            (record self.old { stack = place.now ∷ self.old.stack }) result self.new }
        ensures rises { Rises self.old result self.new }
    {
        let whole = self.pop()?;
        let done = self.index_of(whole.value(), place);
        drop(whole);
        done
    }

    /// The same where what has the index was taken too.
    #[inline(always)]
    fn index_of(&mut self, whole: &Value, place: &Value) -> Result<Went, Stopped>
        ensures does { Does instruction.Index
            (record self.old { stack = place.now ∷ whole.now ∷ self.old.stack })
            result self.new }
        ensures rises { Rises self.old result self.new }
    {
        self.account.charge()?;
        let value = script_values::indexed(self.alloc, whole, place)?;
        self.stack.push(Operand::own(value))?;
        Ok(Went::On)
    }

    /// Makes a list of so many values.
    #[inline(never)]
    pub(crate) fn list(&mut self, count: usize) -> Result<Went, Stopped>
        ensures does { Does (instruction.List count) self.old result self.new }
        ensures rises { Rises self.old result self.new }
    {
        self.account.charge()?;
        let values = self.stack.take(self.alloc, count)?;
        self.stack
            .push(Operand::own(script_values::listed(values)?))?;
        Ok(Went::On)
    }

    /// Takes so many arguments.
    #[inline(always)]
    fn arguments(&mut self, count: usize) -> Result<Vec<Value>, AllocError>
        ensures values { IfOk result (λ values. values.items ≡ topmost count self.old.stack []) }
        ensures left { OnOk result (self.new.stack ≡ drop count self.old.stack) }
        ensures slots { self.new.slots ≡ self.old.slots }
        ensures account { self.new.account ≡ self.old.account }
    {
        let room = mem::replace(&mut self.room, Vec::new(self.alloc));
        self.stack.take_into(self.alloc, count, room)
    }

    /// Keeps the memory of arguments that were used.
    #[inline(always)]
    fn keep(&mut self, mut arguments: Vec<Value>)
        ensures stack { self.new.stack ≡ self.old.stack }
        ensures slots { self.new.slots ≡ self.old.slots }
        ensures account { self.new.account ≡ self.old.account }
    {
        arguments.clear();
        self.room = arguments;
    }

    /// Calls a built-in function with so many arguments; one on a store has the store's name.
    #[inline(never)]
    pub(crate) fn call_builtin(
        &mut self,
        request: &Request,
        store: &[u8],
        builtin: Builtin,
        count: usize,
    ) -> Result<Went, Stopped>
        ensures does { DoesFor request.now (instruction.CallStore builtin store.now count)
            self.old result self.new }
        ensures rises { Rises self.old result self.new }
    {
        let values = self.arguments(count)?;
        let called = script_values::call_of(self.alloc, request, store, builtin, values.as_slice());
        self.keep(values);
        self.called(called)
    }

    /// Spends the step of a call, and has its value or issues its operation.
    #[inline(always)]
    fn called(&mut self, called: Result<Called, Faulted>) -> Result<Went, Stopped>
        ensures does { (c : Call) → Answers (λ x. x) (made c) called
            → Calls c self.old result self.new }
        ensures rises { Rises self.old result self.new }
    {
        if let Err(stopped) = self.account.charge() {
            drop(called);
            return Err(stopped);
        }
        match called? {
            Called::Value(value) => {
                self.stack.push(Operand::own(value))?;
                Ok(Went::On)
            }
            Called::Operation(op) => self.issue(op),
        }
    }

    /// Stops for the answer to an operation, where any may still be issued.
    fn issue(&mut self, op: Op) -> Result<Went, Stopped>
        ensures does { Issues op self.old result self.new }
        ensures rises { Rises self.old result self.new }
    {
        self.account.count_operation()?;
        Err(Stopped::Wants(Wanted::new(self.alloc, op)?))
    }

    /// Takes the topmost value.
    #[inline(always)]
    pub(crate) fn pop(&mut self) -> Result<Operand<'c>, Stopped>
        ensures pops { Pops self.old.stack self.new.stack result }
        ensures slots { self.new.slots ≡ self.old.slots }
        ensures account { self.new.account ≡ self.old.account }
    {
        let alloc = self.alloc;
        self.stack.pop(alloc)
    }

    /// Puts a copy of a value on the stack.
    #[inline(always)]
    pub(crate) fn push_copy(&mut self, value: &Value) -> Result<(), AllocError>
        ensures stack { OnOk result (self.new.stack ≡ value.now ∷ self.old.stack) }
        ensures slots { self.new.slots ≡ self.old.slots }
        ensures account { self.new.account ≡ self.old.account }
    {
        let copy = value.clone()?;
        self.stack.push(Operand::own(copy))
    }

    /// Calls a name that nothing has.
    #[inline(never)]
    pub(crate) fn call_unknown(&mut self, count: usize) -> Result<Went, Stopped>
        ensures does { Does (instruction.CallUnknown count) self.old result self.new }
        ensures rises { Rises self.old result self.new }
    {
        self.account.charge()?;
        Err(Stopped::Fault(ScriptFault::WrongKind))
    }

    /// Issues the transaction of these statements, with their values.
    #[inline(never)]
    pub(crate) fn transact(&mut self, shapes: &[Shape]) -> Result<Went, Stopped>
        ensures does { Does (instruction.Transact shapes.now) self.old result self.new }
        ensures rises { Rises self.old result self.new }
    {
        let alloc = self.alloc;
        let values = self.stack.take(alloc, all_taken(shapes))?;
        self.account.charge()?;
        let statements = all_filled(alloc, shapes, values.as_slice())?;
        let op = script_values::transact_op(alloc, statements)?;
        self.issue(op)
    }

    /// Puts the next member of a list in a slot of its own, and the list and what is left of it on the
    /// stack.
    pub(crate) fn begin_turn(
        &mut self,
        whole: Cell<'c>,
        left: Cell<'c>,
        value: Value,
    ) -> Result<(), AllocError>
        ensures stack { OnOk result
            (self.new.stack ≡ left.entry ∷ whole.entry ∷ self.old.stack) }
        ensures slots { OnOk result
            (self.new.slots.items ≡ self.old.slots.items ++ value ∷ []) }
        ensures account { self.new.account ≡ self.old.account }
    {
        if let Err(error) = self.stack.push_cell(whole) {
            drop(left);
            drop(value);
            return Err(error);
        }
        if let Err(error) = self.stack.push_cell(left) {
            drop(value);
            return Err(error);
        }
        self.slots.push(value)?;
        Ok(())
    }

    /// Leaves so many slots.
    #[inline(never)]
    pub(crate) fn leave(&mut self, count: usize) -> Result<Went, Stopped>
        ensures does { Does (instruction.Leave count) self.old result self.new }
        ensures rises { Rises self.old result self.new }
    {
        self.slots.truncate(count);
        Ok(Went::On)
    }

    /// Puts the value in a slot of its own.
    #[inline(never)]
    pub(crate) fn declare(&mut self) -> Result<Went, Stopped>
        ensures does { Does instruction.Declare self.old result self.new }
        ensures rises { Rises self.old result self.new }
    {
        let operand = self.pop()?;
        self.slots.push(operand.into_value()?)?;
        self.account.charge()?;
        Ok(Went::On)
    }

    /// Puts the value in this slot.
    #[inline(always)]
    pub(crate) fn assign(&mut self, slot: usize) -> Result<Went, Stopped>
        ensures does { Does (instruction.Assign slot) self.old result self.new }
        ensures rises { Rises self.old result self.new }
    {
        let operand = self.pop()?;
        self.put(slot, operand.into_value()?);
        self.account.charge()?;
        Ok(Went::On)
    }

    #[inline(never)]
    pub(crate) fn echo(&mut self) -> Result<Went, Stopped>
        ensures does { Does instruction.Echo self.old result self.new }
        ensures rises { Rises self.old result self.new }
    {
        let operand = self.pop()?;
        let done = self.echo_of(operand.value());
        drop(operand);
        done
    }

    /// Prints a value that was taken.
    #[inline(always)]
    fn echo_of(&mut self, operand: &Value) -> Result<Went, Stopped>
        ensures does { Does instruction.Echo
            (record self.old { stack = operand.now ∷ self.old.stack }) result self.new }
        ensures rises { Rises self.old result self.new }
    {
        self.account.charge()?;
        self.account.print_value(self.alloc, operand)?;
        Ok(Went::On)
    }

    #[inline(never)]
    pub(crate) fn status(&mut self) -> Result<Went, Stopped>
        ensures does { Does instruction.Status self.old result self.new }
        ensures rises { Rises self.old result self.new }
    {
        let operand = self.pop()?;
        let done = self.status_of(operand.value());
        drop(operand);
        done
    }

    /// Sets the status that a value is, which was taken.
    #[inline(always)]
    fn status_of(&mut self, operand: &Value) -> Result<Went, Stopped>
        ensures does { Does instruction.Status
            (record self.old { stack = operand.now ∷ self.old.stack }) result self.new }
        ensures rises { Rises self.old result self.new }
    {
        self.account.charge()?;
        self.account.set_status(operand)?;
        Ok(Went::On)
    }

    #[inline(never)]
    pub(crate) fn discard(&mut self) -> Result<Went, Stopped>
        ensures does { Does instruction.Discard self.old result self.new }
        ensures rises { Rises self.old result self.new }
    {
        let operand = self.pop()?;
        drop(operand);
        self.account.charge()?;
        Ok(Went::On)
    }
}
