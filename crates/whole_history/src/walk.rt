//! A walk through a history.
ghost use Rattle.std.specs.Prelude.{[], List, IfOk};
ghost use Rattle.history.specs.Names.{Named, name, names};
ghost use Rattle.whole_history.specs.Walks.{TakesIn};

use history::{Happening, History};
use std::alloc::AllocError;

/// What is made of a history while one goes through it.
pub(crate) trait Draft: Drop {
    /// This is what is made of these names.
    ghost is_of: { List Named → Self → Type 0 };

    /// Takes in what happened to a request.
    fn take(&mut self, happening: &Happening) -> Result<(), AllocError>
        ensures { TakesIn is_of (name happening.now) self.old self.new result };
}

/// The draft of the whole history.
pub(crate) fn walk<D: Draft>(history: &History, nothing: D) -> Result<D, AllocError>
    requires { D.is_of [] nothing }
    ensures { IfOk result (D.is_of (names history.now)) }
{
    let mut draft = nothing;
    for happening in history.as_slice() {
        draft.take(happening)?;
    }
    Ok(draft)
}
