ghost use Rattle.std.specs.Prelude.{◌≡◌, None};
ghost use Rattle.script_check.specs.Validity.{fault, fault_unless};
ghost use Rattle.script_check.specs.Finds.{Finds};

use crate::fault::{CheckFault, CheckFaultKind};

/// The least fault that was found so far.
#[derive(Drop)]
pub(crate) struct Found {
    pub(crate) least: Option<CheckFault>,
}

impl Found {
    pub(crate) fn new() -> Found
        ensures { result.least ≡ None }
    {
        Found { least: None }
    }

    pub(crate) fn note(&mut self, at: usize, kind: CheckFaultKind)
        ensures { Finds (fault at kind) self.old self.new }
    {
        let fault = CheckFault { at, kind };
        match self.least {
            None => self.least = Some(fault),
            Some(least) => {
                if fault.is_below(&least) {
                    self.least = Some(fault);
                }
            }
        }
    }

    /// Notes the fault, but where that holds.
    #[tactic(auto, unfolding(crate::specs::Least::lower))]
    pub(crate) fn unless(&mut self, holds: bool, at: usize, kind: CheckFaultKind)
        ensures { Finds (fault_unless holds at kind) self.old self.new }
    {
        if !holds {
            self.note(at, kind);
        }
    }
}
