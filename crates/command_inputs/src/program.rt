ghost use Rattle.std.specs.Prelude.{◌<◌, ◌^◌};
ghost use Rattle.outside.specs.Shelves.{IsReadOnce};
ghost use Rattle.command_inputs.specs.Faults.{IsFaultOf, UsesToRead};
ghost use Rattle.command_inputs.specs.declared.role.Role.TheVariants as role;
ghost use Rattle.command_inputs.specs.Inputs.{IsReadUnder};
ghost use Rattle.command_inputs.specs.Program.{program_input};

use crate::fault::{InputError, InputFault, or_fault};
use crate::file::read_whole;
use crate::role::Role;
use outside::Shelf;
use script_check::program::{Program, check};
use script_syntax::parse::parse;
use std::alloc::Global;

/// Reads the program whose file has this name.
pub fn read_program<F: Shelf>(
    alloc: Global,
    shelf: &mut F,
    name: &str,
    most: usize,
) -> Result<Program, InputError>
    requires { most < 2 ^ 63 }
    ensures read { let input = program_input most in
        IsReadUnder (λ program. program) input (F.told shelf.old) name.now result }
    ensures used { UsesToRead (F.told shelf.old) (F.told shelf.new) result }
    ensures of_input { IsFaultOf role.Program result }
    ensures once { IsReadOnce (F.calls shelf.old) (F.calls shelf.new) name.now }
{
    let bytes = read_whole(alloc, shelf, Role::Program, name, most)?;
    let tree = or_fault(parse(alloc, &bytes))?.map_err(InputFault::Syntax)?;
    Ok(or_fault(check(alloc, tree))?.map_err(InputFault::Check)?)
}
