ghost use Rattle.std.specs.Prelude.{◌≡◌, Err};
ghost use Rattle.basis.specs.UnlessMemory.{Answers};
ghost use Rattle.script_meaning.specs.Operators.{if_within_limits};

use basis::OrMemory;
use script_tree::fault::ScriptFault;
use script_tree::value::Value;

/// Why values give no value.
pub type Faulted = OrMemory<ScriptFault>;

/// The value, where it isn't too large.
#[inline(always)]
pub fn if_within_limits(value: Value) -> Result<Value, Faulted>
    ensures { Answers (λ v. v) (if_within_limits value) result }
{
    if value.is_within_limits() {
        Ok(value)
    } else {
        Err(OrMemory::Other(ScriptFault::TooLarge))
    }
}
