ghost use Rattle.std.specs.Prelude.{◌≡◌};
ghost use Rattle.multivalue.specs.declared.apart.Apart.TheVariants.{Memory};

use script_tree::fault::ScriptFault;
use std::alloc::{AllocError, AllocFailed};

/// Why the members of a group have nothing together.
#[derive(Drop)]
pub enum Apart {
    Memory,
    /// Each has this fault.
    Fault(ScriptFault),
    Differ,
}

impl From<AllocError> for Apart {
    ghost from_gives = { λ _ e. e ≡ Memory };

    fn from(_error: AllocError) -> Apart {
        Apart::Memory
    }
}

impl<T: Drop> From<AllocFailed<T>> for Apart {
    ghost from_gives = { λ _ e. e ≡ Memory };

    fn from(_error: AllocFailed<T>) -> Apart {
        Apart::Memory
    }
}
