ghost use Rattle.std.specs.Prelude.{◌<◌, ◌^◌, IfOk};
ghost use Rattle.basis.specs.UnlessMemory.{UnlessMemory};
ghost use Rattle.period.specs.Traces.{IsBalanced};
ghost use Rattle.outside.specs.Shelves.{IsReadOnce};
ghost use Rattle.command_inputs.specs.Faults.{IsFaultOf, UsesToRead};
ghost use Rattle.command_inputs.specs.declared.role.Role.TheVariants as role;
ghost use Rattle.command_inputs.specs.Inputs.{IsReadUnder};
ghost use Rattle.command_inputs.specs.Trace.{trace_input, HasTraceFault, SpellsTrace};

use crate::fault::{InputError, InputFault, TraceFault, or_fault};
use crate::file::read_whole;
use crate::role::Role;
use basis::OrMemory;
use outside::Shelf;
use std::alloc::Global;
use trace_format::balance::first_unbalanced;
use trace_format::trace_file::TraceFile;

/// The balanced trace that the bytes spell.
fn balanced(alloc: Global, bytes: Vec<u8>) -> Result<TraceFile, OrMemory<TraceFault>>
    ensures { UnlessMemory (SpellsTrace bytes.items) (HasTraceFault bytes.items) result }
{
    let read = or_fault(TraceFile::read(alloc, bytes))?;
    let trace = read.map_err(|fault| OrMemory::Other(TraceFault::Unreadable(fault.at as u64)))?;
    match first_unbalanced(alloc, &trace)? {
        None => Ok(trace),
        Some(rid) => Err(OrMemory::Other(TraceFault::Unbalanced(rid))),
    }
}

/// Reads the trace whose file has this name; it is balanced.
pub fn read_trace<F: Shelf>(
    alloc: Global,
    shelf: &mut F,
    name: &str,
    most: usize,
) -> Result<TraceFile, InputError>
    requires { most < 2 ^ 63 }
    ensures read { let input = trace_input most in
        IsReadUnder (λ trace. trace) input (F.told shelf.old) name.now result }
    ensures balanced { IfOk result IsBalanced }
    ensures used { UsesToRead (F.told shelf.old) (F.told shelf.new) result }
    ensures of_input { IsFaultOf role.Trace result }
    ensures once { IsReadOnce (F.calls shelf.old) (F.calls shelf.new) name.now }
{
    let bytes = read_whole(alloc, shelf, Role::Trace, name, most)?;
    let trace = or_fault(balanced(alloc, bytes))?;
    Ok(trace.map_err(InputFault::Trace)?)
}
