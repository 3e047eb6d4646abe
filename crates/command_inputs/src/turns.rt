ghost use Rattle.std.specs.Prelude.{◌<◌, ◌^◌};
ghost use Rattle.outside.specs.Shelves.{IsReadOnce};
ghost use Rattle.command_inputs.specs.Faults.{IsFaultOf, UsesToRead};
ghost use Rattle.command_inputs.specs.declared.role.Role.TheVariants as role;
ghost use Rattle.command_inputs.specs.Inputs.{IsReadUnder};
ghost use Rattle.command_inputs.specs.Turns.{turns_input};

use crate::fault::{InputError, InputFault, or_fault};
use crate::file::read_whole;
use crate::role::Role;
use outside::Shelf;
use std::alloc::Global;
use workload::Turns;

/// Reads the turns whose file has this name.
pub fn read_turns<F: Shelf>(
    alloc: Global,
    shelf: &mut F,
    name: &str,
    most: usize,
) -> Result<Turns, InputError>
    requires { most < 2 ^ 63 }
    ensures read { let input = turns_input most in
        IsReadUnder (λ turns. turns) input (F.told shelf.old) name.now result }
    ensures used { UsesToRead (F.told shelf.old) (F.told shelf.new) result }
    ensures of_input { IsFaultOf role.Turns result }
    ensures once { IsReadOnce (F.calls shelf.old) (F.calls shelf.new) name.now }
{
    let bytes = read_whole(alloc, shelf, Role::Turns, name, most)?;
    let turns = or_fault(workload::read_turns(alloc, &bytes))?;
    Ok(turns.map_err(InputFault::Turns)?)
}
