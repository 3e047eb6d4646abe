//! Calls from two seats of one desk, and a thousand turns that two threads take at it.
ghost use Rattle.desk.specs.Runs.{Runs};
ghost use Rattle.shared_desk.specs.Seats.{IsSeatOf};

use desk::bench::{Bench, Call};
use shared_desk::{Desk, DeskSeat};
use std::alloc::{AllocError, Global};
use std::sync::Wait;
use std::thread::{Threads, join};

/// A counter, which answers how far it was.
struct Counter;

impl Bench for Counter {
    ghost use Rattle.std.specs.Prelude.{◌≡◌, ◌+◌};

    type State = u64;

    type Event = ();

    type Reply = u64;

    ghost may = { λ s seat e. Unit {0} };

    ghost steps = { λ s seat e r t. (r ≡ s) × (t ≡ s + 1) };

    ghost others = { λ s t a b e f r h n. ((λ m. m), λ m. m) };

    fn step(state: &mut u64, _seat: u32, _event: &()) -> Result<(u64, u64), AllocError> {
        let reply = *state;
        *state = state.checked_add(1).ok_or(AllocError)?;
        Ok((reply, reply))
    }
}

/// Its calls.
type Counts = Vec<Call<(), u64>>;

/// The replies to a call from the first seat and to one from another.
fn replies<R: Wait>(rt: &R, alloc: Global) -> Result<(u64, u64), AllocError> {
    let (desk, mut first) = Desk::<Counter, Counts>::new(alloc, 5, Vec::new(alloc))?;
    let mut second = desk.split(&mut first);
    let replies = match (
        desk.call(rt, &mut first, ()),
        desk.call(rt, &mut second, ()),
    ) {
        (Ok(ours), Ok(theirs)) => Ok((ours, theirs)),
        (Err(error), _) | (_, Err(error)) => Err(error),
    };
    drop(second);
    drop(first);
    drop(desk);
    replies
}

#[test]
fn a_call_follows_that_of_another_seat(rt: HostRuntime) {
    assert!(rt; replies(&rt, rt.alloc()) == Ok((5, 6)));
}

/// The sum of the replies to 500 calls from a seat.
fn sum_of_calls<R: Wait>(
    rt: &R,
    desk: &Desk<Counter, Counts>,
    mut seat: DeskSeat<Counter, Counts>,
) -> u64
    requires own { IsSeatOf desk.now seat }
{
    let mut sum: u64 = 0;
    for _ in 0..500 {
        if let Ok(reply) = desk.call(rt, &mut seat, ()) {
            sum = sum.wrapping_add(reply);
        }
    }
    sum
}

/// The sum of the replies to a thousand calls of two threads.
fn sum_of_all<R: Threads + Wait + Sync>(rt: &R, alloc: Global) -> Result<u64, AllocError> {
    let (desk, mut first) = Desk::<Counter, Counts>::new(alloc, 0, Vec::new(alloc))?;
    let second = desk.split(&mut first);
    let (ours, theirs) = join(
        rt,
        || sum_of_calls(rt, &desk, first),
        || sum_of_calls(rt, &desk, second),
    );
    Ok(ours.wrapping_add(theirs))
}

#[test]
fn two_threads_take_a_thousand_turns(rt: HostRuntime) {
    assert!(rt; sum_of_all(&rt, rt.alloc()) == Ok(499_500));
}
