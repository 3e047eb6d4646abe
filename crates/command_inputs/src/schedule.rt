ghost use Rattle.std.specs.Prelude.{◌<◌, ◌^◌};
ghost use Rattle.outside.specs.Shelves.{IsReadOnce};
ghost use Rattle.command_inputs.specs.Faults.{IsFaultOf, UsesToRead};
ghost use Rattle.command_inputs.specs.declared.role.Role.TheVariants as role;
ghost use Rattle.command_inputs.specs.Inputs.{IsReadUnder};
ghost use Rattle.command_inputs.specs.Schedule.{schedule_input};

use crate::fault::{InputError, or_fault};
use crate::file::read_whole;
use crate::role::Role;
use outside::Shelf;
use schedule_format::schedule_file::ScheduleFile;
use std::alloc::Global;

/// Reads the schedule whose file has this name, or the place of its first bad record.
pub fn read_schedule<F: Shelf>(
    alloc: Global,
    shelf: &mut F,
    name: &str,
    most: usize,
) -> Result<Result<ScheduleFile, u64>, InputError>
    requires { most < 2 ^ 63 }
    ensures read { let input = schedule_input most in
        IsReadUnder (λ schedule. schedule) input (F.told shelf.old) name.now result }
    ensures used { UsesToRead (F.told shelf.old) (F.told shelf.new) result }
    ensures of_input { IsFaultOf role.Schedule result }
    ensures once { IsReadOnce (F.calls shelf.old) (F.calls shelf.new) name.now }
{
    let bytes = read_whole(alloc, shelf, Role::Schedule, name, most)?;
    let schedule = or_fault(ScheduleFile::read(alloc, bytes))?;
    Ok(schedule.map_err(|fault| fault.at as u64))
}
