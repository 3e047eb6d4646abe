//! What the slot of a desk holds, and the journal in it.
ghost use Rattle.std.specs.Prelude.{◌≡◌, [], ◌∷◌, ◌++◌, List, IfOk, OnOk, OnErr};
ghost use Rattle.desk.specs.Runs.{call};
ghost use Rattle.desk.specs.declared.bench.Call.{Call as Called};
ghost use Rattle.shared_desk.specs.Kept.{calls_of, KeepsCalls, MayTake};

use desk::bench::{Bench, Call};
use std::alloc::{AllocError, Global};
use std::snapshot::Snapshot;

/// What is kept of the calls of a desk while they are made.
pub trait CallJournal<E, R>: Drop {
    /// This is what is kept of the calls.
    ghost keeps: { List (Called E R) → Self → Type 0 };

    /// The call may be taken in.
    ghost may_take: { Called E R → Type 0 };

    /// Takes in the call that is made next. Where memory is lacking, the desk goes on without the journal.
    fn take(&mut self, call: Call<E, R>) -> Result<(), AllocError>
        requires { may_take call }
        ensures { (calls : List (Called E R)) → keeps calls self.old
            → OnOk result (keeps (calls ++ call ∷ []) self.new) };
}

/// All calls, in their order.
impl<E: Drop, R: Drop> CallJournal<E, R> for Vec<Call<E, R>> {
    ghost keeps = { λ calls journal. journal.items ≡ calls };

    ghost may_take = { λ call. Unit {0} };

    fn take(&mut self, call: Call<E, R>) -> Result<(), AllocError>
        ensures { (calls : List (Called E R)) → self.old.items ≡ calls
            → OnOk result (self.new.items ≡ calls ++ call ∷ []) }
    {
        self.push(call)?;
        Ok(())
    }
}

/// The state after the calls so far, and the journal of them, which is none where it lacked memory. Of the calls
/// themselves no byte is kept.
#[derive(Drop)]
pub struct Kept<S, E, R, J> {
    pub calls: Vec<Snapshot<Call<E, R>>>,
    pub state: S,
    pub journal: Option<J>,
}

/// What the desk of a bench keeps.
pub type KeptOf<B, J> = Kept<<B as Bench>::State, <B as Bench>::Event, <B as Bench>::Reply, J>;

/// No calls yet.
pub(crate) fn opened<S: Drop, E: Drop, R: Drop, J: CallJournal<E, R>>(
    alloc: Global,
    state: S,
    journal: J,
) -> Kept<S, E, R, J>
    requires { J.keeps [] journal }
    ensures calls { calls_of result ≡ [] }
    ensures state { result.state ≡ state }
    ensures keeps { KeepsCalls J.keeps result }
{
    Kept {
        calls: Vec::new(alloc),
        state,
        journal: Some(journal),
    }
}

/// Makes a call, which the journal takes in.
pub(crate) fn make_call<B: Bench, J: CallJournal<B::Event, B::Reply>>(
    held: &mut KeptOf<B, J>,
    seat: u32,
    event: B::Event,
) -> Result<B::Reply, AllocError>
    requires may { B.may held.old.state seat event }
    requires take { MayTake J.may_take seat event }
    ensures calls { IfOk result (λ r.
        calls_of held.new ≡ calls_of held.old ++ call seat event r ∷ []) }
    ensures steps { IfOk result (λ r. B.steps held.old.state seat event r held.new.state) }
    ensures keeps { KeepsCalls J.keeps held.old → OnOk result (KeepsCalls J.keeps held.new) }
    ensures err_calls { OnErr result (calls_of held.new ≡ calls_of held.old) }
    ensures err_state { OnErr result (held.new.state ≡ held.old.state) }
    ensures err_journal { OnErr result (held.new.journal ≡ held.old.journal) }
{
    held.calls.reserve(1)?;
    let (told, reply) = B::step(&mut held.state, seat, &event)?;
    let call = Call {
        seat,
        event,
        reply: told,
    };
    held.calls.push_reserved(Snapshot::of(&call));
    let taken = match &mut held.journal {
        Some(journal) => journal.take(call),
        None => Ok(()),
    };
    if taken.is_err() {
        held.journal = None;
    }
    Ok(reply)
}
