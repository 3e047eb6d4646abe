ghost use Rattle.std.specs.Prelude.{◌≡◌};
ghost use Rattle.basis.specs.declared.or_memory.OrMemory.TheVariants.{Memory};

use std::alloc::{AllocError, AllocFailed};
use std::fmt;

/// Why a call has no value: it ran out of memory, or a fault of its own.
#[derive(Drop, PartialEq, Eq)]
pub enum OrMemory<E> {
    Memory,
    Other(E),
}

impl<E> OrMemory<E> {
    ghost use Rattle.basis.specs.UnlessMemory.{IsMapped};

    /// The same with another fault: what `wrap` makes of this one.
    pub fn map<F, W: FnOnce(E) -> F + Drop>(self, wrap: W) -> OrMemory<F>
        requires { W.IsAlwaysCallable wrap }
        ensures { IsMapped (W.post wrap) self result }
    {
        match self {
            OrMemory::Memory => OrMemory::Memory,
            OrMemory::Other(fault) => OrMemory::Other(wrap(fault)),
        }
    }
}

impl<E: fmt::Display> fmt::Display for OrMemory<E> {
    fn fmt<W: fmt::Write>(&self, f: &mut fmt::Formatter<W>) -> fmt::Result {
        match self {
            OrMemory::Memory => write!(f, "out of memory"),
            OrMemory::Other(fault) => write!(f, "{fault}"),
        }
    }
}

impl<E> From<AllocError> for OrMemory<E> {
    ghost from_gives = { λ _ e. e ≡ Memory };

    fn from(_error: AllocError) -> OrMemory<E> {
        OrMemory::Memory
    }
}

impl<T: Drop, E> From<AllocFailed<T>> for OrMemory<E> {
    ghost from_gives = { λ _ e. e ≡ Memory };

    fn from(_error: AllocFailed<T>) -> OrMemory<E> {
        OrMemory::Memory
    }
}
