ghost use Rattle.std.specs.Prelude.{◌≡◌};
ghost use Rattle.script_fit.specs.OfProgram.{takes_number, choice_is_of};

use script_tree::operation::{Act, Choice};

/// Whether the choice of such an act is a number.
fn takes_number(act: &Act) -> bool
    ensures { result ≡ takes_number act.now }
{
    match act {
        Act::Now | Act::Roll(_) => true,
        Act::Read
        | Act::Write(_)
        | Act::Get(_)
        | Act::Put(_, _)
        | Act::Remove(_)
        | Act::Transact(_) => false,
    }
}

/// Whether the choice is of the kind that the act takes.
pub(crate) fn choice_is_of(act: &Act, choice: Choice) -> bool
    ensures { result ≡ choice_is_of act.now choice }
{
    match choice {
        Choice::Nothing => !takes_number(act),
        Choice::Number(_) => takes_number(act),
    }
}
