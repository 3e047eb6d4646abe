ghost use Rattle.std.specs.Prelude.{◌<◌, ◌^◌, IfOk};
ghost use Rattle.report_format.specs.Limits.{HasValuesWithinLimits};
ghost use Rattle.outside.specs.Shelves.{IsReadOnce};
ghost use Rattle.command_inputs.specs.Faults.{IsFaultOf, UsesToRead};
ghost use Rattle.command_inputs.specs.declared.role.Role.TheVariants as role;
ghost use Rattle.command_inputs.specs.Inputs.{IsReadUnder};
ghost use Rattle.command_inputs.specs.Report.{report_input};

use crate::fault::{InputError, or_fault};
use crate::file::read_whole;
use crate::role::Role;
use outside::Shelf;
use period::report::Report;
use report_format::decoding::decode;
use report_format::law::values_are_within_limits;
use std::alloc::Global;

/// Reads the report whose file has this name, or the place of its first bad record.
pub fn read_report<F: Shelf>(
    alloc: Global,
    shelf: &mut F,
    name: &str,
    most: usize,
) -> Result<Result<Report, u64>, InputError>
    requires { most < 2 ^ 63 }
    ensures read { let input = report_input most in
        IsReadUnder (λ report. report) input (F.told shelf.old) name.now result }
    ensures limits { IfOk result (λ read. IfOk read HasValuesWithinLimits) }
    ensures used { UsesToRead (F.told shelf.old) (F.told shelf.new) result }
    ensures of_input { IsFaultOf role.Report result }
    ensures once { IsReadOnce (F.calls shelf.old) (F.calls shelf.new) name.now }
{
    values_are_within_limits();
    let bytes = read_whole(alloc, shelf, Role::Report, name, most)?;
    let report = or_fault(decode(alloc, &bytes))?;
    Ok(report.map_err(|fault| fault.at as u64))
}
