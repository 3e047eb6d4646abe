ghost use Rattle.std.specs.Prelude.{◌≡◌, IfOk, OnErr};
ghost use Rattle.basis.specs.declared.or_memory.OrMemory.TheVariants.{Memory as NoMemory};
ghost use Rattle.command_inputs.specs.Faults.{or_memory, refused};
ghost use Rattle.command_inputs.specs.FaultTexts.{syntax_number};
ghost use Rattle.command_inputs.specs.declared.fault.InputError.TheVariants.{Fault, Halt as Halts};
ghost use Rattle.command_inputs.specs.declared.halt.Halt.TheVariants.{Memory};

use crate::halt::Halt;
use crate::role::Role;
use basis::OrMemory;
use outside::ShelfFault;
use script_check::fault::CheckFault;
use script_tokens::fault::{SyntaxFault, SyntaxFaultKind};
use state_file::StateFault;
use std::alloc::AllocError;
use std::fmt;
use workload::WorkFault;

/// What is wrong with a trace.
#[derive(Clone, Copy, PartialEq, Eq)]
pub enum TraceFault {
    /// Its first bad record begins at this byte, from 0.
    Unreadable(u64),
    /// It isn't balanced; the request of this id names the fault.
    Unbalanced(u32),
}

/// What is wrong with an input.
#[derive(Clone, Copy, PartialEq, Eq)]
pub enum InputFault {
    /// It isn't there.
    Absent(Role),
    /// It has more bytes than its limit.
    TooLong(Role),
    /// The program's text has this first fault.
    Syntax(SyntaxFault),
    /// The program's tree has this least fault.
    Check(CheckFault),
    State(StateFault),
    Requests(WorkFault),
    Turns(WorkFault),
    Trace(TraceFault),
}

/// Why an input was not read.
#[derive(Clone, Copy, PartialEq, Eq)]
pub enum InputError {
    Fault(InputFault),
    Halt(Halt),
}

impl InputError {
    /// Why an input was not read, where the shelf refused a read of it.
    pub fn refused(role: Role, fault: ShelfFault) -> InputError
        ensures { result ≡ refused role fault }
    {
        match fault {
            ShelfFault::Absent => InputError::Fault(InputFault::Absent(role)),
            ShelfFault::Failed => InputError::Halt(Halt::Failed),
            ShelfFault::Memory => InputError::Halt(Halt::Memory),
        }
    }
}

/// The thing or its fault, where memory did not run out.
pub(crate) fn or_fault<T, E>(read: Result<T, OrMemory<E>>) -> Result<Result<T, E>, AllocError>
    ensures told { IfOk result (λ told. read ≡ or_memory told) }
    ensures memory { OnErr result (read ≡ Err NoMemory) }
{
    match read {
        Ok(thing) => Ok(Ok(thing)),
        Err(OrMemory::Other(fault)) => Ok(Err(fault)),
        Err(OrMemory::Memory) => Err(AllocError),
    }
}

/// The number by which this kind of fault is printed.
fn syntax_number(kind: SyntaxFaultKind) -> u8
    ensures { result ≡ syntax_number kind }
{
    match kind {
        SyntaxFaultKind::NoToken => 1,
        SyntaxFaultKind::Grammar => 2,
        SyntaxFaultKind::Limit => 3,
    }
}

impl fmt::Display for TraceFault {
    ghost use Rattle.std.specs.Prelude.{Some};
    ghost use Rattle.command_inputs.specs.FaultTexts.{trace_fault_text};

    ghost output = { λ fault. Some (trace_fault_text fault) };

    fn fmt<W: fmt::Write>(&self, f: &mut fmt::Formatter<W>) -> fmt::Result {
        match self {
            TraceFault::Unreadable(at) => write!(f, "unreadable at {at}"),
            TraceFault::Unbalanced(rid) => write!(f, "not balanced at request {rid}"),
        }
    }
}

impl fmt::Display for InputFault {
    ghost use Rattle.std.specs.Prelude.{Some};
    ghost use Rattle.command_inputs.specs.FaultTexts.{fault_text};

    ghost output = { λ fault. Some (fault_text fault) };

    fn fmt<W: fmt::Write>(&self, f: &mut fmt::Formatter<W>) -> fmt::Result {
        match self {
            InputFault::Absent(role) => write!(f, "{role}: absent"),
            InputFault::TooLong(role) => write!(f, "{role}: too long"),
            InputFault::Syntax(fault) => {
                let number = syntax_number(fault.kind);
                let at = fault.at;
                write!(f, "program: syntax {number} at {at}")
            }
            InputFault::Check(fault) => {
                let number = fault.kind.number();
                let at = fault.at;
                write!(f, "program: check {number} at {at}")
            }
            InputFault::State(fault) => write!(f, "state: {fault}"),
            InputFault::Requests(fault) => write!(f, "requests: {fault}"),
            InputFault::Turns(fault) => write!(f, "turns: {fault}"),
            InputFault::Trace(fault) => write!(f, "trace: {fault}"),
        }
    }
}

impl From<InputFault> for InputError {
    ghost from_gives = { λ fault error. error ≡ Fault fault };

    fn from(fault: InputFault) -> InputError {
        InputError::Fault(fault)
    }
}

impl From<AllocError> for InputError {
    ghost from_gives = { λ _ error. error ≡ Halts Memory };

    fn from(_: AllocError) -> InputError {
        InputError::Halt(Halt::Memory)
    }
}
