ghost use Rattle.std.specs.Prelude.{◌≡◌, ◌<◌, ◌+◌, ◌∷◌, [], ℕ, List, length, Ok, Err, OnOk};
ghost use Rattle.script_tree.specs.Datum.{Datum, data_of, list as listed};
ghost use Rattle.script_tree.specs.Requests.{Request as Asked};
ghost use Rattle.script_tree.specs.declared.fault.ScriptFault.TheVariants.{WrongKind};
ghost use Rattle.script_meaning.specs.Kinds.{list_in};
ghost use Rattle.script_code.specs.declared.instruction.Instruction.TheVariants as instruction;
ghost use Rattle.machine.specs.Does.{Acts, ActsFor, Falls, Returns, Runs, StepsOn, Turns};
ghost use Rattle.machine.specs.Places.{IsPlaceOf, Charges};
ghost use Rattle.machine.specs.declared.stopped.Went.TheVariants.{On};

use crate::cell::{Cell, NextMember};
use crate::frames::{Frame, Frames};
use crate::stack::Stack;
use crate::state::State;
use crate::stopped::{Stopped, Went};
use script_code::instruction::Instruction;
use script_code::translate::Code;
use script_tree::fault::ScriptFault;
use script_tree::limits::MOST_CALL_DEPTH;
use script_tree::request::Request;
use script_tree::value::Value;
use script_values::Operand;
use std::alloc::AllocError;
use std::mem;

/// Where a run is in the code.
#[derive(Drop)]
pub(crate) struct Run<'c> {
    /// The calls that are not over.
    pub(crate) frames: Frames<'c>,
    /// The place of the instruction that is next.
    pub(crate) place: usize,
    pub(crate) state: State<'c>,
}

impl<'c> Run<'c> {
    /// Passes so many instructions after this one. Code that lacks them is out of steps, as all code
    /// that lacks what an instruction takes: none of a program does.
    #[inline(always)]
    fn jump(&mut self, place: usize, count: usize, len: usize) -> Result<Went, Stopped>
        requires { IsPlaceOf len place }
        ensures acts { Acts (instruction.Jump count) len place self.old result self.new }
        ensures forward { result ≡ Ok On → place < self.new.place }
        ensures frames { self.new.frames ≡ self.old.frames }
        ensures state { self.new.state ≡ self.old.state }
    {
        if count > len {
            return Err(Stopped::Fault(ScriptFault::OutOfSteps));
        }
        self.place = place + 1 + count;
        Ok(Went::On)
    }

    /// Begins a loop over a list: what is left of it is the whole list.
    #[inline(never)]
    fn each(&mut self, place: usize, count: usize, len: usize) -> Result<Went, Stopped>
        requires { IsPlaceOf len place }
        ensures acts { Acts (instruction.Each count) len place self.old result self.new }
        ensures forward { result ≡ Ok On → place < self.new.place }
        ensures frames { self.new.frames ≡ self.old.frames }
        ensures steps { self.new.state.account.steps ≡ self.old.state.account.steps }
    {
        let left = self.state.pop()?;
        if let Err(AllocError) = self.state.push_copy(left.value()) {
            drop(left);
            return Err(Stopped::Memory);
        }
        self.state.stack.push(left)?;
        self.jump(place, count, len)
    }

    #[inline(never)]
    fn and(&mut self, place: usize, count: usize, len: usize) -> Result<Went, Stopped>
        requires { IsPlaceOf len place }
        ensures acts { Acts (instruction.And count) len place self.old result self.new }
        ensures charges { Charges self.old result self.new }
    {
        let operand = self.state.pop()?;
        match self.state.account.decide(operand.value()) {
            Ok(false) => {
                self.state.stack.push(operand)?;
                self.jump(place, count, len)
            }
            Ok(true) => {
                drop(operand);
                self.place = place + 1;
                Ok(Went::On)
            }
            Err(stopped) => {
                drop(operand);
                Err(stopped)
            }
        }
    }

    #[inline(never)]
    fn or(&mut self, place: usize, count: usize, len: usize) -> Result<Went, Stopped>
        requires { IsPlaceOf len place }
        ensures acts { Acts (instruction.Or count) len place self.old result self.new }
        ensures charges { Charges self.old result self.new }
    {
        let operand = self.state.pop()?;
        match self.state.account.decide(operand.value()) {
            Ok(true) => {
                self.state.stack.push(operand)?;
                self.jump(place, count, len)
            }
            Ok(false) => {
                drop(operand);
                self.place = place + 1;
                Ok(Went::On)
            }
            Err(stopped) => {
                drop(operand);
                Err(stopped)
            }
        }
    }

    #[inline(always)]
    fn branch(&mut self, place: usize, count: usize, len: usize) -> Result<Went, Stopped>
        requires { IsPlaceOf len place }
        ensures acts { Acts (instruction.Branch count) len place self.old result self.new }
        ensures charges { Charges self.old result self.new }
    {
        let operand = self.state.pop()?;
        let holds = self.state.account.decide(operand.value());
        drop(operand);
        if holds? {
            self.place = place + 1;
            Ok(Went::On)
        } else {
            self.jump(place, count, len)
        }
    }

    #[inline(always)]
    fn again(&mut self, place: usize, count: usize, len: usize) -> Result<Went, Stopped>
        requires { IsPlaceOf len place }
        ensures acts { Acts (instruction.Again count) len place self.old result self.new }
        ensures charges { Charges self.old result self.new }
    {
        let operand = self.state.pop()?;
        let holds = self.state.account.decide(operand.value());
        drop(operand);
        if holds? {
            self.place = place.saturating_sub(count);
        } else {
            self.place = place + 1;
        }
        Ok(Went::On)
    }

    /// Begins the next turn of a loop over a list, or ends it.
    #[inline(never)]
    fn turn(&mut self, place: usize, count: usize, len: usize) -> Result<Went, Stopped>
        requires { IsPlaceOf len place }
        ensures acts { Acts (instruction.Turn count) len place self.old result self.new }
        ensures charges { Charges self.old result self.new }
    {
        let left = self.state.stack.pop_cell()?;
        let whole = self.state.stack.pop_cell()?;
        self.turn_of(whole, left, place + 1, place.saturating_sub(count))
    }

    /// Goes back with the next member of a list of which this is left, or out where there is none.
    fn turn_of(
        &mut self,
        whole: Cell<'c>,
        mut left: Cell<'c>,
        out: usize,
        back: usize,
    ) -> Result<Went, Stopped>
        ensures turns { Turns whole.entry left.entry out back self.old result self.new }
        ensures charges { Charges self.old result self.new }
    {
        match left.next() {
            Ok(NextMember::Member(value)) => self.go_back(whole, left, value, back),
            Ok(NextMember::NoList) => {
                drop(whole);
                drop(left);
                self.no_list()
            }
            Ok(NextMember::Over) => {
                drop(whole);
                drop(left);
                self.go_out(out)
            }
            Err(AllocError) => {
                drop(whole);
                drop(left);
                Err(Stopped::Memory)
            }
        }
    }

    /// Spends the step of a loop over what is no list.
    fn no_list(&mut self) -> Result<Went, Stopped>
        ensures turns { (whole left : Datum) (out back : ℕ) → list_in left ≡ Err WrongKind
            → Turns whole left out back self.old result self.new }
        ensures charges { Charges self.old result self.new }
    {
        self.state.account.charge()?;
        Err(Stopped::Fault(ScriptFault::WrongKind))
    }

    /// Ends a loop over a list.
    fn go_out(&mut self, out: usize) -> Result<Went, Stopped>
        ensures turns { (whole left : Datum) (back : ℕ) → list_in left ≡ Ok []
            → Turns whole left out back self.old result self.new }
        ensures charges { Charges self.old result self.new }
    {
        self.state.account.decide_so(false)?;
        self.place = out;
        Ok(Went::On)
    }

    /// Begins a turn with this member of a list of which that is left.
    fn go_back(
        &mut self,
        whole: Cell<'c>,
        left: Cell<'c>,
        value: Value,
        back: usize,
    ) -> Result<Went, Stopped>
        ensures turns { (left' : Datum) (others : List Datum) (out : ℕ)
            → list_in left' ≡ Ok (value ∷ others) → left.entry ≡ listed (data_of others)
            → Turns whole.entry left' out back self.old result self.new }
        ensures charges { Charges self.old result self.new }
    {
        self.state.begin_turn(whole, left, value)?;
        self.state.account.decide_so(true)?;
        self.place = back;
        Ok(Went::On)
    }

    /// Calls the function of this number with so many arguments.
    #[inline(never)]
    fn call(
        &mut self,
        functions: &[usize],
        place: usize,
        function: usize,
        count: usize,
        len: usize,
    ) -> Result<Went, Stopped>
        requires { IsPlaceOf len place }
        ensures acts { (q : Asked) → ActsFor q functions.now (instruction.Call function count) len
            place self.old result self.new }
        ensures steps { OnOk result
            (self.new.state.account.steps ≡ self.old.state.account.steps + 1) }
        ensures frames { OnOk result (length self.new.frames ≡ length self.old.frames + 1) }
    {
        self.state.account.charge()?;
        let Some(start) = functions.get(function) else {
            return Err(Stopped::Fault(ScriptFault::OutOfSteps));
        };
        if self.frames.len() == MOST_CALL_DEPTH as usize {
            return Err(Stopped::Fault(ScriptFault::TooDeep));
        }
        let alloc = self.state.alloc;
        let room = self.frames.room(alloc);
        let values = self.state.stack.take_into(alloc, count, room)?;
        let stack = self.frames.empty_stack(alloc);
        let frame = Frame {
            place: place + 1,
            stack: mem::replace(&mut self.state.stack, stack),
            slots: mem::replace(&mut self.state.slots, values),
        };
        self.frames.push(frame)?;
        self.place = *start;
        Ok(Went::On)
    }

    /// Gives the value back from a function; ends a page.
    #[inline(never)]
    fn give_back(&mut self) -> Result<Went, Stopped>
        ensures acts { (len place : ℕ)
            → Acts instruction.Return len place self.old result self.new }
        ensures steps { result ≡ Ok On
            → self.new.state.account.steps ≡ self.old.state.account.steps + 1 }
        ensures frames { result ≡ Ok On → length self.old.frames ≡ length self.new.frames + 1 }
    {
        let operand = self.state.pop()?;
        self.state.account.charge()?;
        self.back(operand)
    }

    /// Goes back to where the call was with a value; without one the page is over.
    fn back(&mut self, operand: Operand<'c>) -> Result<Went, Stopped>
        ensures returns { Returns operand.entry self.old result self.new }
        ensures steps { self.new.state.account.steps ≡ self.old.state.account.steps }
        ensures frames { result ≡ Ok On → length self.old.frames ≡ length self.new.frames + 1 }
    {
        match self.frames.pop() {
            None => Ok(Went::Over),
            Some(frame) => {
                let Frame {
                    place,
                    mut stack,
                    slots,
                } = frame;
                stack.push(operand)?;
                self.place = place;
                let ended = mem::replace(&mut self.state.stack, stack);
                let room = mem::replace(&mut self.state.slots, slots);
                self.frames.keep_stack(ended);
                self.frames.keep_slots(room);
                Ok(Went::On)
            }
        }
    }

    /// Does the instruction at a place. It is inlined into the loop of `run`, and would be too large
    /// for that if the rarer instructions were a part of it: `inline(never)` keeps them out.
    #[inline(always)]
    fn act(
        &mut self,
        code: &'c Code,
        request: &Request,
        place: usize,
        instruction: &'c Instruction,
    ) -> Result<Went, Stopped>
        requires { IsPlaceOf (length code.now.instructions.items) place }
        ensures acts { ActsFor request.now code.now.functions.items instruction.now
            (length code.now.instructions.items) place self.old result self.new }
        ensures falls { result ≡ Ok On
            → Falls (length code.now.instructions.items) place self.old self.new }
    {
        let len = code.instructions.len();
        self.place = place + 1;
        match instruction {
            Instruction::Push(value) => self.state.push(value),
            Instruction::Load(slot) => self.state.load(*slot),
            Instruction::Unary(operator) => self.state.unary(*operator),
            Instruction::Binary(operator) => self.state.binary(*operator),
            Instruction::Index => self.state.index(),
            Instruction::List(count) => self.state.list(*count),
            Instruction::CallBuiltin(builtin, count) => {
                self.state.call_builtin(request, &[], *builtin, *count)
            }
            Instruction::CallStore(builtin, store, count) => {
                let store = store.as_bytes();
                self.state.call_builtin(request, store, *builtin, *count)
            }
            Instruction::CallUnknown(count) => self.state.call_unknown(*count),
            Instruction::Transact(shapes) => self.state.transact(shapes.as_slice()),
            Instruction::Leave(count) => self.state.leave(*count),
            Instruction::Declare => self.state.declare(),
            Instruction::Assign(slot) => self.state.assign(*slot),
            Instruction::Echo => self.state.echo(),
            Instruction::Status => self.state.status(),
            Instruction::Discard => self.state.discard(),
            Instruction::Call(function, count) => {
                self.call(code.functions.as_slice(), place, *function, *count, len)
            }
            Instruction::And(count) => self.and(place, *count, len),
            Instruction::Or(count) => self.or(place, *count, len),
            Instruction::Branch(count) => self.branch(place, *count, len),
            Instruction::Again(count) => self.again(place, *count, len),
            Instruction::Jump(count) => self.jump(place, *count, len),
            Instruction::Each(count) => self.each(place, *count, len),
            Instruction::Turn(count) => self.turn(place, *count, len),
            Instruction::Return => self.give_back(),
            Instruction::End => self.back(Operand::own(Value::null())),
            Instruction::Halt => Ok(Went::Over),
        }
    }

    /// Does the instruction that is next. An operator and the assignment of its value are done at
    /// once, and so are a right operand and its operator.
    #[inline(always)]
    fn step(&mut self, code: &'c Code, request: &Request) -> Result<Went, Stopped>
        ensures gives { StepsOn request.now code.now.functions.items code.now.instructions.items
            self.old result self.new }
        ensures falls { result ≡ Ok On
            → Falls (length code.now.instructions.items) self.old.place self.old self.new }
    {
        let place = self.place;
        match code.instructions.get(place) {
            None => Err(Stopped::Fault(ScriptFault::OutOfSteps)),
            Some(instruction) => match (instruction, code.instructions.get(place + 1)) {
                (Instruction::Binary(operator), Some(Instruction::Assign(slot))) => {
                    self.place = place + 2;
                    self.state.update(*operator, *slot)
                }
                (Instruction::Push(value), Some(Instruction::Binary(operator))) => {
                    self.place = place + 2;
                    self.state.push_and_binary(value, *operator)
                }
                (Instruction::Load(slot), Some(Instruction::Binary(operator))) => {
                    self.place = place + 2;
                    self.state.load_and_binary(*slot, *operator)
                }
                _ => self.act(code, request, place, instruction),
            },
        }
    }

    /// Does instructions up to the next operation that is wanted, or to the end.
    pub(crate) fn run(&mut self, code: &'c Code, request: &Request) -> Result<(), Stopped>
        ensures { Runs request.now code.now.functions.items code.now.instructions.items
            self.old result self.new }
    {
        loop {
            match self.step(code, request) {
                Ok(Went::On) => {}
                Ok(Went::Over) => return Ok(()),
                Err(stopped) => return Err(stopped),
            }
        }
    }
}
