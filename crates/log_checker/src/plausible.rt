ghost use Rattle.std.specs.Prelude.{◌≡◌};
ghost use Rattle.script_tree.specs.Objects.{Cell, plausible, is_nothing, is_reading, is_roll, reading, none};
ghost use Rattle.log_checker.specs.Entries.{Awaits};

use script_tree::operation::{Act, Choice};

fn is_nothing(choice: Choice) -> bool
    ensures { result ≡ is_nothing choice }
{
    match choice {
        Choice::Nothing => true,
        Choice::Number(_) => false,
    }
}

/// Whether the clock, which read this last, may read the choice.
fn is_reading(choice: Choice, last: i64) -> bool
    ensures { result ≡ is_reading choice (reading last) }
{
    match choice {
        Choice::Nothing => false,
        Choice::Number(time) => last <= time,
    }
}

/// Whether dice of this bound may give the choice.
fn is_roll(bound: i64, choice: Choice) -> bool
    ensures { result ≡ is_roll bound choice none }
{
    match choice {
        Choice::Nothing => false,
        Choice::Number(number) => 0 <= number && number < bound,
    }
}

/// Whether the object takes the choice, where the clock read this last.
pub(crate) fn is_plausible(act: &Act, choice: Choice, last: i64) -> bool
    ensures { (cell : Cell) → Awaits last act.now cell → result ≡ plausible act.now choice cell }
{
    match act {
        Act::Read
        | Act::Write(_)
        | Act::Get(_)
        | Act::Put(_, _)
        | Act::Remove(_)
        | Act::Transact(_) => is_nothing(choice),
        Act::Now => is_reading(choice, last),
        Act::Roll(bound) => is_roll(*bound, choice),
    }
}
