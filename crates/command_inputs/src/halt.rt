ghost use Rattle.std.specs.Prelude.{◌≡◌};
ghost use Rattle.command_inputs.specs.Halts.{halt_of, halt_status};
ghost use Rattle.command_inputs.specs.declared.halt.Halt.TheVariants.{Memory};

use outside::Fault;
use std::alloc::AllocError;

/// Why a command ends without an answer, or without all of its line.
#[derive(Clone, Copy, PartialEq, Eq)]
pub enum Halt {
    /// The world outside failed, and a count of faults has risen.
    Failed,
    /// It ran out of memory.
    Memory,
}

impl Halt {
    /// The exit status for it.
    pub fn status(self) -> u8
        ensures { result ≡ halt_status self }
    {
        match self {
            Halt::Failed => 4,
            Halt::Memory => 5,
        }
    }
}

impl From<AllocError> for Halt {
    ghost from_gives = { λ _ halt. halt ≡ Memory };

    fn from(_: AllocError) -> Halt {
        Halt::Memory
    }
}

impl From<Fault> for Halt {
    ghost from_gives = { λ fault halt. halt ≡ halt_of fault };

    fn from(fault: Fault) -> Halt {
        match fault {
            Fault::Failed => Halt::Failed,
            Fault::Memory => Halt::Memory,
        }
    }
}
