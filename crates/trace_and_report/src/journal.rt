ghost use Rattle.std.specs.Prelude.{[], List, IfOk};
ghost use Rattle.history.specs.declared.happening.Happening.{Happening as Happened};
ghost use Rattle.history.specs.Names.{names};
ghost use Rattle.trace_and_report.specs.Journaled.{Keeps};
ghost use Rattle.trace_and_report.specs.Written.{AreFiles};

use crate::draft::Draft;
use crate::recorded::Recorded;
use history::{Happening, Journal};
use std::alloc::{AllocError, Global};

/// A journal that writes the files of a history while it goes on: of the trace it keeps the bytes,
/// of the report what its records are made of.
#[derive(Drop)]
pub struct FileJournal {
    draft: Draft,
}

impl FileJournal {
    /// Before anything has happened.
    pub fn new(alloc: Global) -> Result<FileJournal, AllocError>
        ensures { IfOk result (Keeps []) }
    {
        Ok(FileJournal {
            draft: Draft::new(alloc)?,
        })
    }

    /// The files of the history, however long they are: `Recorded::too_long` tells whether they may be
    /// written.
    pub fn finish(self) -> Result<Recorded, AllocError>
        requires { (history : List Happened) × Keeps history self }
        ensures { (history : List Happened) → Keeps history self
            → IfOk result (AreFiles (names history)) }
    {
        self.draft.finish()
    }
}

impl Journal for FileJournal {
    ghost keeps = { Keeps };

    fn take(&mut self, happening: Happening) -> Result<(), AllocError> {
        self.draft.take(happening)
    }
}
