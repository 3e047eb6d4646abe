ghost use Rattle.std.specs.Prelude.{◌≡◌, ◌+◌, IfOk};

use std::alloc::AllocError;

/// The position after this one. What 32 bits don't hold is answered as want of memory.
pub fn next_position(position: u32) -> Result<u32, AllocError>
    ensures { IfOk result (λ next. next ≡ position + 1) }
{
    position.checked_add(1).ok_or(AllocError)
}
