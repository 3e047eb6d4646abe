ghost use Rattle.std.specs.Prelude.{◌<◌, ◌^◌, IfOk};
ghost use Rattle.object_set.specs.ObjectSets.{IsSetOf, objects_of};
ghost use Rattle.outside.specs.Shelves.{IsReadOnce};
ghost use Rattle.command_inputs.specs.Faults.{IsFaultOf, UsesToRead};
ghost use Rattle.command_inputs.specs.declared.role.Role.TheVariants as role;
ghost use Rattle.command_inputs.specs.Inputs.{IsReadUnder};
ghost use Rattle.command_inputs.specs.State.{state_input};

use crate::fault::{InputError, InputFault, or_fault};
use crate::file::read_whole;
use crate::role::Role;
use object_set::ObjectSet;
use outside::Shelf;
use script_check::program::Program;
use std::alloc::Global;

/// Reads the state whose file has this name: the objects that a program starts with.
pub fn read_state<F: Shelf>(
    alloc: Global,
    shelf: &mut F,
    name: &str,
    most: usize,
    program: &Program,
) -> Result<ObjectSet, InputError>
    requires { most < 2 ^ 63 }
    ensures read { let input = state_input program.now most in
        IsReadUnder objects_of input (F.told shelf.old) name.now result }
    ensures set { IfOk result (IsSetOf program.now) }
    ensures used { UsesToRead (F.told shelf.old) (F.told shelf.new) result }
    ensures of_input { IsFaultOf role.State result }
    ensures once { IsReadOnce (F.calls shelf.old) (F.calls shelf.new) name.now }
{
    let bytes = read_whole(alloc, shelf, Role::State, name, most)?;
    let objects = or_fault(state_file::read_state(alloc, program, &bytes))?;
    Ok(objects.map_err(InputFault::State)?)
}
