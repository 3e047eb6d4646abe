ghost use Rattle.std.specs.Prelude.{◌≡◌, ◌≤ℤ◌, pos, true, is_some, IfOk, OnOk, OnErr};
ghost use Rattle.std.specs.Option.{option_copied};
ghost use Rattle.script_tree.specs.Datum.{IsWithinLimits};
ghost use Rattle.script_tree.specs.Fit.{Fit, IsKey};
ghost use Rattle.script_tree.specs.Objects.{is_nothing, is_reading, is_roll, reading, none};
ghost use Rattle.script_tree.specs.Programs.{Program as AnyProgram, program_of};
ghost use Rattle.script_tree.specs.declared.operation.Choice.{Choice as AnyChoice};
ghost use Rattle.script_tree.specs.declared.operation.Choice.TheVariants.{Number};
ghost use Rattle.script_tree.specs.declared.operation.Act.TheVariants.{Read, Get, Now, Roll};
ghost use Rattle.script_tree.specs.declared.operation.Object.TheVariants.{Register as AnyRegister, Store as AnyStore, Tables as AllTables, Clock as TheClock, Dice as TheDice};
ghost use Rattle.script_fit.specs.ActOf.{IsRegisterAct, IsStoreAct, IsTablesAct};
ghost use Rattle.script_fit.specs.FitsOperation.{FitsClock, FitsDice};
ghost use Rattle.script_fit.specs.FitsTransaction.{FitsRow};
ghost use Rattle.object_cells.specs.Cells.{held};
ghost use Rattle.object_cells.specs.Stores.{has_store, held_in, store_of};
ghost use Rattle.object_set.specs.Applied.{IsOpOf, Does, DoesTimes, IsApplied, IsAppliedTimes, answer_now, op_of, takes, told};
ghost use Rattle.object_set.specs.ObjectSets.{IsSetOf, IsEmptySet, objects_of};
ghost use Rattle.object_set.specs.Stored.{PutsRegister, PutsCell, InsertsRow};

use basis::OrMemory;
use object_cells::{Registers, Store, Stores};
use object_tables::tables::Tables;
use script_tree::operation::{Act, Choice, Object, Op};
use script_tree::syntax::declaration::Declaration;
use script_tree::text::Text;
use script_tree::value::{Value, Values};
use std::alloc::{AllocError, Global};
use std::marker::Model;

/// The choice isn't one that the object takes.
#[derive(Drop)]
pub struct Refused;

/// What all objects of a program hold. Each holds what it may, and no operation makes or removes a
/// store or a table.
#[derive(Drop)]
pub struct ObjectSet {
    alloc: Global,
    registers: Registers,
    stores: Stores,
    tables: Tables,
    clock: i64,
}

impl Model for ObjectSet {
    ghost use Rattle.object_set.specs.ObjectSets.{HeldObjects, coded_objects};

    ghost Value = { HeldObjects };

    ghost coded = { coded_objects };

    ghost use Rattle.object_set.specs.ObjectSetView.{objects_in, IsKeptIn};

    ghost view = { objects_in };

    ghost invariant = { IsKeptIn };
}

impl ObjectSet {
    /// The objects that a program declares, where nothing is stored.
    pub fn new(alloc: Global, declarations: &[Declaration]) -> Result<ObjectSet, AllocError>
        ensures declared { IfOk result (IsSetOf (program_of declarations.now)) }
        ensures empty { IfOk result IsEmptySet }
    {
        Ok(ObjectSet {
            alloc,
            registers: Registers::new(alloc),
            stores: Stores::new(alloc, declarations)?,
            tables: Tables::new(alloc, declarations)?,
            clock: 0,
        })
    }

    /// Each object holds what it may, where the set is that of a program.
    #[tactic(auto, using(crate::proofs::Kept::fit))]
    pub fn fits(&self)
        ensures { (program : AnyProgram) → IsSetOf program self.now →
            Fit program (objects_of self.now) }
    {
        let _ = &self.clock;
    }

    /// The registers.
    pub fn registers(&self) -> &Registers
        ensures { result.now ≡ self.now.registers }
    {
        &self.registers
    }

    /// The store of a name, where it is there.
    pub fn store(&self, name: &Text) -> Option<&Store>
        ensures { option_copied result ≡ store_of self.now.stores name.now }
    {
        self.stores.store(name)
    }

    /// The tables.
    pub fn tables(&self) -> &Tables
        ensures { result.now ≡ self.now.tables }
    {
        &self.tables
    }

    /// The clock's last reading.
    pub fn clock(&self) -> i64
        ensures reading { result ≡ self.now.clock }
        ensures not_negative { pos 0 ≤ℤ result }
    {
        self.clock
    }

    /// Gives a register its value, and tells whether it had one.
    pub fn put_register(&mut self, name: Text, value: Value) -> Result<bool, AllocError>
        requires name_fits { IsKey name }
        requires value_fits { IsWithinLimits value }
        ensures had { IfOk result (λ had. had ≡ is_some (held self.old.registers name)) }
        ensures put { OnOk result (PutsRegister name value self.old self.new) }
        ensures err { OnErr result (self.new ≡ self.old) }
    {
        self.registers.put(name, value)
    }

    /// Gives a key of a store its value, and tells whether it had one.
    pub fn put_cell(&mut self, store: &Text, key: Text, value: Value) -> Result<bool, AllocError>
        requires there { has_store self.old.stores store.now ≡ true }
        requires key_fits { IsKey key }
        requires value_fits { IsWithinLimits value }
        ensures had { IfOk result (λ had. had ≡ is_some (held_in self.old.stores store.now key)) }
        ensures put { OnOk result (PutsCell store.now key value self.old self.new) }
        ensures err { OnErr result (self.new ≡ self.old) }
    {
        self.stores.put(store, key, value)
    }

    /// Adds a row to a table; `false` where its key is there.
    pub fn insert_row(&mut self, table: u32, row: Values) -> Result<bool, AllocError>
        requires { FitsRow self.old.tables.widths table row }
        ensures done { IfOk result (InsertsRow table row self.old self.new) }
        ensures err { OnErr result (self.new ≡ self.old) }
    {
        self.tables.insert_row(table, row)
    }

    /// The clock read this last.
    pub fn set_clock(&mut self, time: i64)
        requires { pos 0 ≤ℤ time }
        ensures { self.new ≡ record self.old { clock = time } }
    {
        self.clock = time;
    }

    /// Does an operation with its choice, and gives its answer. A choice that the object doesn't take
    /// is refused. A value over the limits of a script isn't stored: that is answered as want of
    /// memory.
    pub fn apply(&mut self, op: &Op, choice: Choice) -> Result<Value, OrMemory<Refused>>
        requires { IsOpOf self.old op.now }
        ensures { IsApplied op.now choice self.old self.new result }
    {
        if !self.takes(op, choice) {
            return Err(OrMemory::Other(Refused));
        }
        match &op.object {
            Object::Register(name) => Ok(self.on_register(name, &op.act)?),
            Object::Store(name) => Ok(self.on_store(name, &op.act)?),
            Object::Tables => Ok(self.on_tables(&op.act)?),
            Object::Clock => Ok(self.on_clock(&op.act, choice)),
            Object::Dice => Ok(self.on_dice(&op.act, choice)),
        }
    }

    /// Does an operation as `apply` does, and gives its answer so many times. All of them are made
    /// before anything changes.
    pub fn apply_copies(
        &mut self,
        op: &Op,
        choice: Choice,
        count: usize,
    ) -> Result<Vec<Value>, OrMemory<Refused>>
        requires { IsOpOf self.old op.now }
        ensures { IsAppliedTimes count op.now choice self.old self.new result }
    {
        if !self.takes(op, choice) {
            return Err(OrMemory::Other(Refused));
        }
        match &op.act {
            Act::Read => {
                let answer = self.read(&op.object)?;
                self.apply_giving(op, choice, answer, count)
            }
            Act::Get(key) => {
                let answer = self.get(&op.object, key)?;
                self.apply_giving(op, choice, answer, count)
            }
            Act::Write(_) | Act::Put(_, _) | Act::Remove(_) => {
                self.apply_giving(op, choice, Value::null(), count)
            }
            Act::Now | Act::Roll(_) => self.apply_giving(op, choice, told(choice), count),
            Act::Transact(_) => Ok(self.on_tables_copies(&op.act, count)?),
        }
    }

    /// Does an operation whose answer is known, and gives that so many times.
    fn apply_giving(
        &mut self,
        op: &Op,
        choice: Choice,
        answer: Value,
        count: usize,
    ) -> Result<Vec<Value>, OrMemory<Refused>>
        requires fits { IsOpOf self.old op.now }
        requires known { answer ≡ answer_now op.now.object op.now.act choice self.old }
        ensures { IsAppliedTimes count op.now choice self.old self.new result }
    {
        let answers = Vec::from_elem(self.alloc, answer, count)?;
        self.apply(op, choice)?;
        Ok(answers)
    }

    /// What a register holds.
    #[tactic(auto, unfolding(script_tree::specs::Objects::acted))]
    fn read(&self, object: &Object) -> Result<Value, AllocError>
        requires { IsOpOf self.now (op_of object.now Read) }
        ensures { (choice : AnyChoice) →
            IfOk result (λ d. d ≡ answer_now object.now Read choice self.now) }
    {
        match object {
            Object::Register(name) => self.registers.get(name),
            Object::Store(_) | Object::Tables | Object::Clock | Object::Dice => unreachable!(),
        }
    }

    /// What stands under a key of a store.
    #[tactic(auto, unfolding(script_tree::specs::Objects::acted))]
    fn get(&self, object: &Object, key: &Text) -> Result<Value, AllocError>
        requires { IsOpOf self.now (op_of object.now (Get key.now)) }
        ensures { (choice : AnyChoice) →
            IfOk result (λ d. d ≡ answer_now object.now (Get key.now) choice self.now) }
    {
        match object {
            Object::Store(name) => self.stores.get(name, key),
            Object::Register(_) | Object::Tables | Object::Clock | Object::Dice => unreachable!(),
        }
    }

    /// Whether the object takes the choice.
    #[tactic(auto, unfolding(script_tree::specs::Objects::plausible))]
    pub fn takes(&self, op: &Op, choice: Choice) -> bool
        requires { IsOpOf self.now op.now }
        ensures { result ≡ takes op.now choice self.now }
    {
        match &op.act {
            Act::Read
            | Act::Write(_)
            | Act::Get(_)
            | Act::Put(_, _)
            | Act::Remove(_)
            | Act::Transact(_) => is_nothing(choice),
            Act::Now => is_reading(choice, self.clock),
            Act::Roll(bound) => is_roll(choice, *bound),
        }
    }

    fn on_register(&mut self, name: &Text, act: &Act) -> Result<Value, AllocError>
        requires { IsRegisterAct name.now act.now }
        ensures done { (choice : AnyChoice) →
            IfOk result (Does (op_of (AnyRegister name.now) act.now) choice self.old self.new) }
        ensures err { OnErr result (self.new ≡ self.old) }
    {
        match act {
            Act::Read => self.registers.get(name),
            Act::Write(value) => {
                self.registers
                    .put(name.clone()?, copy_within_limits(value)?)?;
                Ok(Value::null())
            }
            Act::Get(_)
            | Act::Put(_, _)
            | Act::Remove(_)
            | Act::Transact(_)
            | Act::Now
            | Act::Roll(_) => unreachable!(),
        }
    }

    fn on_store(&mut self, name: &Text, act: &Act) -> Result<Value, AllocError>
        requires there { has_store self.old.stores name.now ≡ true }
        requires fits { IsStoreAct act.now }
        ensures done { (choice : AnyChoice) →
            IfOk result (Does (op_of (AnyStore name.now) act.now) choice self.old self.new) }
        ensures err { OnErr result (self.new ≡ self.old) }
    {
        match act {
            Act::Get(key) => self.stores.get(name, key),
            Act::Put(key, value) => {
                self.stores
                    .put(name, key.clone()?, copy_within_limits(value)?)?;
                Ok(Value::null())
            }
            Act::Remove(key) => {
                self.stores.remove(name, key);
                Ok(Value::null())
            }
            Act::Read | Act::Write(_) | Act::Transact(_) | Act::Now | Act::Roll(_) => {
                unreachable!()
            }
        }
    }

    fn on_tables(&mut self, act: &Act) -> Result<Value, AllocError>
        requires { IsTablesAct self.old.tables.widths act.now }
        ensures done { (choice : AnyChoice) →
            IfOk result (Does (op_of AllTables act.now) choice self.old self.new) }
        ensures err { OnErr result (self.new ≡ self.old) }
    {
        match act {
            Act::Transact(statements) => {
                let outcome = self.tables.transact(self.alloc, statements)?;
                Ok(outcome.into_answer())
            }
            Act::Read
            | Act::Write(_)
            | Act::Get(_)
            | Act::Put(_, _)
            | Act::Remove(_)
            | Act::Now
            | Act::Roll(_) => unreachable!(),
        }
    }

    /// Runs a transaction, and gives its answer so many times.
    fn on_tables_copies(&mut self, act: &Act, count: usize) -> Result<Vec<Value>, AllocError>
        requires { IsTablesAct self.old.tables.widths act.now }
        ensures done { (choice : AnyChoice) →
            IfOk result (DoesTimes count (op_of AllTables act.now) choice self.old self.new) }
        ensures err { OnErr result (self.new ≡ self.old) }
    {
        match act {
            Act::Transact(statements) => self.tables.transact_copies(self.alloc, statements, count),
            Act::Read
            | Act::Write(_)
            | Act::Get(_)
            | Act::Put(_, _)
            | Act::Remove(_)
            | Act::Now
            | Act::Roll(_) => unreachable!(),
        }
    }

    fn on_clock(&mut self, act: &Act, choice: Choice) -> Value
        requires fits { FitsClock act.now }
        requires taken { takes (op_of TheClock act.now) choice self.old ≡ true }
        ensures { Does (op_of TheClock act.now) choice self.old self.new result }
    {
        match act {
            Act::Now => self.read_clock(choice),
            Act::Read
            | Act::Write(_)
            | Act::Get(_)
            | Act::Put(_, _)
            | Act::Remove(_)
            | Act::Transact(_)
            | Act::Roll(_) => unreachable!(),
        }
    }

    #[tactic(auto, using(crate::proofs::Acting::reads_clock), unfolding(script_tree::specs::Objects::plausible))]
    fn read_clock(&mut self, choice: Choice) -> Value
        requires { takes (op_of TheClock Now) choice self.old ≡ true }
        ensures { Does (op_of TheClock Now) choice self.old self.new result }
    {
        match choice {
            Choice::Number(time) => {
                self.clock = time;
                Value::number(time)
            }
            Choice::Nothing => unreachable!(),
        }
    }

    fn on_dice(&self, act: &Act, choice: Choice) -> Value
        requires fits { FitsDice act.now }
        requires taken { takes (op_of TheDice act.now) choice self.now ≡ true }
        ensures { Does (op_of TheDice act.now) choice self.now self.now result }
    {
        match act {
            Act::Roll(bound) => self.roll(*bound, choice),
            Act::Read
            | Act::Write(_)
            | Act::Get(_)
            | Act::Put(_, _)
            | Act::Remove(_)
            | Act::Transact(_)
            | Act::Now => unreachable!(),
        }
    }

    #[tactic(auto, using(crate::proofs::Acting::rolls), unfolding(script_tree::specs::Objects::plausible))]
    fn roll(&self, bound: i64, choice: Choice) -> Value
        requires { takes (op_of TheDice (Roll bound)) choice self.now ≡ true }
        ensures { Does (op_of TheDice (Roll bound)) choice self.now self.now result }
    {
        match choice {
            Choice::Number(number) => Value::number(number),
            Choice::Nothing => unreachable!(),
        }
    }
}

impl Clone for ObjectSet {
    ghost is_clone = { λ objects copy. copy ≡ objects };

    fn clone(&self) -> Result<ObjectSet, AllocError> {
        Ok(ObjectSet {
            alloc: self.alloc,
            registers: self.registers.clone()?,
            stores: self.stores.clone()?,
            tables: self.tables.clone()?,
            clock: self.clock,
        })
    }
}

/// A copy of a value. That the value is over the limits of a script is answered as want of memory.
fn copy_within_limits(value: &Value) -> Result<Value, AllocError>
    ensures copy { IfOk result (λ copy. copy ≡ value.now) }
    ensures within { IfOk result IsWithinLimits }
{
    if !value.is_within_limits() {
        return Err(AllocError);
    }
    value.clone()
}

/// The number that was chosen.
fn told(choice: Choice) -> Value
    ensures { result ≡ told choice }
{
    match choice {
        Choice::Nothing => Value::null(),
        Choice::Number(number) => Value::number(number),
    }
}

fn is_nothing(choice: Choice) -> bool
    ensures { result ≡ is_nothing choice }
{
    match choice {
        Choice::Nothing => true,
        Choice::Number(_) => false,
    }
}

/// Whether it is a reading of a clock that read this last.
fn is_reading(choice: Choice, last: i64) -> bool
    ensures { result ≡ is_reading choice (reading last) }
{
    match choice {
        Choice::Number(time) => last <= time,
        Choice::Nothing => false,
    }
}

/// Whether it is a roll below this bound.
fn is_roll(choice: Choice, bound: i64) -> bool
    ensures { result ≡ is_roll bound choice none }
{
    match choice {
        Choice::Number(number) => 0 <= number && number < bound,
        Choice::Nothing => false,
    }
}
