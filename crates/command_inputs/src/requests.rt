ghost use Rattle.std.specs.Prelude.{◌<◌, ◌^◌};
ghost use Rattle.outside.specs.Shelves.{IsReadOnce};
ghost use Rattle.command_inputs.specs.Faults.{IsFaultOf, UsesToRead};
ghost use Rattle.command_inputs.specs.declared.role.Role.TheVariants as role;
ghost use Rattle.command_inputs.specs.Inputs.{IsReadUnder};
ghost use Rattle.command_inputs.specs.Requests.{requests_input};

use crate::fault::{InputError, InputFault, or_fault};
use crate::file::read_whole;
use crate::role::Role;
use outside::Shelf;
use std::alloc::Global;
use workload::Requests;

/// Reads the requests of the jobs whose file has this name.
pub fn read_requests<F: Shelf>(
    alloc: Global,
    shelf: &mut F,
    name: &str,
    most: usize,
) -> Result<Requests, InputError>
    requires { most < 2 ^ 63 }
    ensures read { let input = requests_input most in
        IsReadUnder (λ requests. requests) input (F.told shelf.old) name.now result }
    ensures used { UsesToRead (F.told shelf.old) (F.told shelf.new) result }
    ensures of_input { IsFaultOf role.Requests result }
    ensures once { IsReadOnce (F.calls shelf.old) (F.calls shelf.new) name.now }
{
    let bytes = read_whole(alloc, shelf, Role::Requests, name, most)?;
    let requests = or_fault(workload::read_requests(alloc, &bytes))?;
    Ok(requests.map_err(InputFault::Requests)?)
}
