ghost use Rattle.std.specs.Prelude.{◌≡◌, IfOk};
ghost use Rattle.log_checker.specs.EntryFaults.{reason_at};

use crate::log_objects::copy_of;
use audit_meaning::reason::Reason;
use script_tree::operation::Object;
use std::alloc::AllocError;

/// What is wrong with an entry of a log.
#[derive(Clone, Copy, PartialEq, Eq)]
pub(crate) enum EntryFault {
    Foreign,
    OfNoRequest,
    Uncounted,
    Second,
    OutOfOrder,
    Implausible,
}

impl EntryFault {
    /// The reason that it is, of the entry at a position of an object's log.
    pub(crate) fn at(self, object: &Object, position: u32) -> Result<Reason, AllocError>
        ensures { IfOk result (λ reason. reason ≡ reason_at self object.now position) }
    {
        let object = copy_of(object)?;
        match self {
            EntryFault::Foreign => Ok(Reason::ForeignEntry { object, position }),
            EntryFault::OfNoRequest => Ok(Reason::EntryOfNoRequest { object, position }),
            EntryFault::Uncounted => Ok(Reason::UncountedEntry { object, position }),
            EntryFault::Second => Ok(Reason::SecondEntry { object, position }),
            EntryFault::OutOfOrder => Ok(Reason::EntryOutOfOrder { object, position }),
            EntryFault::Implausible => Ok(Reason::ImplausibleEntry { object, position }),
        }
    }
}
