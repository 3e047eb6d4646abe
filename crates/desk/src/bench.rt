ghost use Rattle.std.specs.Prelude.{◌≡◌, ◌≢◌, ℕ, IfOk, OnErr};

use std::alloc::AllocError;

/// A call: the seat that it came from, what was asked, and the reply.
#[derive(Drop)]
pub struct Call<E, R> {
    pub seat: u32,
    pub event: E,
    pub reply: R,
}

/// An object that is called from seats, one call after another.
pub trait Bench {
    type State: Drop;

    type Event: Drop;

    type Reply: Drop;

    /// In this state the event may come from the seat.
    ghost may: { Self.State → ℕ → Self.Event → Type 0 };

    /// In this state the event from the seat may have this reply, and leave the other state.
    ghost steps: { Self.State → ℕ → Self.Event → Self.Reply → Self.State → Type 0 };

    /// Answers an event. The reply is given twice: one to keep, and one for who asked.
    fn step(
        state: &mut Self::State,
        seat: u32,
        event: &Self::Event,
    ) -> Result<(Self::Reply, Self::Reply), AllocError>
        requires { may state.old seat event.now }
        ensures steps { IfOk result (λ r. steps state.old seat event.now r.0 state.new) }
        ensures twice { IfOk result (λ r. r.0 ≡ r.1) }
        ensures err { OnErr result (state.new ≡ state.old) };

    /// A step of one seat changes nothing in what may come from another.
    ghost others: { (s t : Self.State) (a b : ℕ) (e f : Self.Event) (r : Self.Reply) →
        steps s a e r t → a ≢ b → (may s b f → may t b f) × (may t b f → may s b f) };
}
