ghost use Rattle.std.specs.Prelude.{◌≡◌, drop, IfOk};
ghost use Rattle.script_tree.specs.Datum.{list as listed, data_of};
ghost use Rattle.machine.specs.CellView.{IsNext};

use script_tree::value::{Value, Values};
use script_values::{Operand, as_list, copied};
use std::alloc::{AllocError, Global};
use std::marker::Model;

/// A value on the stack. Of a list a loop may have passed the first members: then contracts see the
/// list of those that are left. Only the place in the list is kept, so that no turn copies it.
#[derive(Drop)]
pub(crate) struct Cell<'c> {
    operand: Operand<'c>,
    passed: usize,
}

impl<'c> Model for Cell<'c> {
    ghost use Rattle.script_tree.specs.Datum.{Datum};
    ghost use Rattle.script_tree.specs.DatumCode.{coded_datum};

    ghost Value = { Datum };

    ghost coded = { coded_datum };

    ghost use Rattle.machine.specs.CellView.{left_of};

    ghost view = { λ a. left_of a.passed a.operand };
}

/// What is next of a value that a loop goes over.
#[derive(Drop)]
pub(crate) enum NextMember {
    /// It isn't a list.
    NoList,
    Over,
    Member(Value),
}

impl<'c> Cell<'c> {
    #[inline(always)]
    pub(crate) fn new(operand: Operand<'c>) -> Cell<'c>
        ensures { result ≡ operand.entry }
    {
        Cell { operand, passed: 0 }
    }

    /// Passes the next member of a list, and gives it.
    pub(crate) fn next(&mut self) -> Result<NextMember, AllocError>
        ensures { IfOk result (IsNext self.old self.new) }
    {
        match as_list(self.operand.value()) {
            None => Ok(NextMember::NoList),
            Some(values) => match values.as_slice().get(self.passed) {
                None => Ok(NextMember::Over),
                Some(value) => {
                    let value = value.clone()?;
                    self.passed += 1;
                    Ok(NextMember::Member(value))
                }
            },
        }
    }

    /// The value as an operand. Where a loop passed members of it, the others are put in a list.
    #[inline(always)]
    pub(crate) fn into_operand(self, alloc: Global) -> Result<Operand<'c>, AllocError>
        ensures { IfOk result (λ operand. operand ≡ self.entry) }
    {
        let Cell { operand, passed } = self;
        if passed == 0 {
            return Ok(operand);
        }
        match as_list(operand.value()) {
            None => Ok(operand),
            Some(values) => Ok(Operand::own(left(alloc, values, passed)?)),
        }
    }
}

/// The list of the members of a list from a place on.
fn left(alloc: Global, values: &Values, place: usize) -> Result<Value, AllocError>
    ensures { IfOk result (λ value. value ≡ listed (data_of (drop place values.now))) }
{
    let members = values.as_slice();
    let others = if place < members.len() {
        &members[place..]
    } else {
        &[]
    };
    Ok(Value::list(Values::from_vec(copied(alloc, others)?)?))
}
