//! How many operations each request did, in a list by id.
ghost use Rattle.std.specs.Prelude.{◌≡◌, ◌+◌, ℕ, IfOk, OnOk};
ghost use Rattle.trace_and_report.specs.Draft.{counted, one_more_of};

use history::seats::put_at;
use std::alloc::AllocError;

/// One operation more of a request.
pub fn count(operations: &mut Vec<Option<u32>>, rid: u32) -> Result<(), AllocError>
    ensures { OnOk result ((r : ℕ) → counted operations.new.items r
        ≡ one_more_of rid (counted operations.old.items) r) }
{
    let more = one_more(counted(operations, rid))?;
    put_at(operations, rid, more)
}

/// How many operations a request did.
pub fn counted(operations: &[Option<u32>], rid: u32) -> u32
    ensures { result ≡ counted operations.now rid }
{
    let here = operations.get(rid as usize).copied().flatten();
    here.unwrap_or(0)
}

fn one_more(count: u32) -> Result<u32, AllocError>
    ensures { IfOk result (λ more. more ≡ count + 1) }
{
    count.checked_add(1).ok_or(AllocError)
}
