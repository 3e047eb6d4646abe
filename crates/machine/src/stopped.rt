ghost use Rattle.std.specs.Prelude.{◌≡◌, IfOk};
ghost use Rattle.machine.specs.declared.stopped.Stopped.TheVariants.{Memory};
ghost use Rattle.machine.specs.Gives.{stopped_by};

use basis::OrMemory;
use script_tree::fault::ScriptFault;
use script_tree::operation::Op;
use std::alloc::{AllocError, AllocFailed, Global};
use std::marker::Model;

/// An operation that is wanted. It lies in a place of its own, so that what each part of a run gives
/// back is small. Contracts see the operation.
#[derive(Drop)]
pub(crate) struct Wanted {
    op: Box<Op>,
}

impl Model for Wanted {
    ghost use Rattle.script_tree.specs.contracts.operation.Op as row;
    ghost use Rattle.script_tree.specs.declared.operation.Op.{Op};

    ghost Value = { Op };

    ghost coded = { row.the_row.coded };

    ghost view = { λ a. a.op.value };
}

impl Wanted {
    pub(crate) fn new(alloc: Global, op: Op) -> Result<Wanted, AllocError>
        ensures { IfOk result (λ wanted. wanted ≡ op) }
    {
        Ok(Wanted {
            op: Box::new(alloc, op)?,
        })
    }

    pub(crate) fn into_op(self) -> Op
        ensures { result ≡ self }
    {
        let Wanted { op } = self;
        Box::into_inner(op)
    }
}

/// Why a part of a run gave no value.
#[derive(Drop)]
pub(crate) enum Stopped {
    Memory,
    Wants(Wanted),
    Fault(ScriptFault),
}

/// Whether there is more to do.
#[derive(Clone, Copy)]
pub(crate) enum Went {
    On,
    Over,
}

impl From<AllocError> for Stopped {
    ghost from_gives = { λ _ e. e ≡ Memory };

    fn from(_error: AllocError) -> Stopped {
        Stopped::Memory
    }
}

impl<T: Drop> From<AllocFailed<T>> for Stopped {
    ghost from_gives = { λ _ e. e ≡ Memory };

    fn from(_error: AllocFailed<T>) -> Stopped {
        Stopped::Memory
    }
}

impl From<OrMemory<ScriptFault>> for Stopped {
    ghost from_gives = { λ error e. e ≡ stopped_by error };

    fn from(error: OrMemory<ScriptFault>) -> Stopped {
        match error {
            OrMemory::Memory => Stopped::Memory,
            OrMemory::Other(fault) => Stopped::Fault(fault),
        }
    }
}
