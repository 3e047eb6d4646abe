ghost use Rattle.std.specs.Prelude.{◌≡◌, false, not, IfOk, OnOk};
ghost use Rattle.script_tree.specs.declared.operation.Object.{Object as AnyObject};
ghost use Rattle.audit_meaning.specs.LogFaults.{second_log};
ghost use Rattle.log_checker.specs.Faults.{IsFaultIfAny};
ghost use Rattle.log_checker.specs.LogObjects.{has_object, Enters};

use audit_meaning::reason::Reason;
use basis::OrMemory;
use period::report::Report;
use script_tree::operation::Object;
use std::alloc::{AllocError, Global};
use std::collections::BTreeSet;
use std::mem;

/// The objects that some logs are of.
#[derive(Drop)]
pub(crate) struct LogObjects<'a> {
    registers: BTreeSet<&'a [u8]>,
    stores: BTreeSet<&'a [u8]>,
    tables: bool,
    clock: bool,
    dice: bool,
}

impl<'a> LogObjects<'a> {
    fn new(alloc: Global) -> LogObjects<'a>
        ensures { (o : AnyObject) → has_object result o ≡ false }
    {
        LogObjects {
            registers: BTreeSet::new(alloc),
            stores: BTreeSet::new(alloc),
            tables: false,
            clock: false,
            dice: false,
        }
    }

    /// Puts an object among them, and tells whether it wasn't there.
    fn enter(&mut self, object: &'a Object) -> Result<bool, AllocError>
        ensures new { IfOk result (λ b. b ≡ not (has_object self.old object.now)) }
        ensures enters { OnOk result (Enters object.now self.old self.new) }
    {
        match object {
            Object::Register(name) => Ok(self.registers.insert(name.as_bytes())?),
            Object::Store(name) => Ok(self.stores.insert(name.as_bytes())?),
            Object::Tables => Ok(!mem::replace(&mut self.tables, true)),
            Object::Clock => Ok(!mem::replace(&mut self.clock, true)),
            Object::Dice => Ok(!mem::replace(&mut self.dice, true)),
        }
    }
}

/// The same object, in memory of its own.
pub(crate) fn copy_of(object: &Object) -> Result<Object, AllocError>
    ensures { IfOk result (λ copy. copy ≡ object.now) }
{
    match object {
        Object::Register(name) => Ok(Object::Register(name.clone()?)),
        Object::Store(name) => Ok(Object::Store(name.clone()?)),
        Object::Tables => Ok(Object::Tables),
        Object::Clock => Ok(Object::Clock),
        Object::Dice => Ok(Object::Dice),
    }
}

/// No two logs are of one object.
pub(crate) fn check_objects(alloc: Global, report: &Report) -> Result<(), OrMemory<Reason>>
    ensures { IsFaultIfAny (second_log report.now) result }
{
    let mut seen = LogObjects::new(alloc);
    for log in report.logs.as_slice() {
        if !seen.enter(&log.object)? {
            return Err(OrMemory::Other(Reason::SecondLog {
                object: copy_of(&log.object)?,
            }));
        }
    }
    Ok(())
}
