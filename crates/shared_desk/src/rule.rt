//! The rule that desks keep, what a seat knows by it, and what each step tells. No value of these types is made.
use crate::kept::{CallJournal, Kept, KeptOf};
use atomic_table::{Join, Play, Split, TableRule};
use desk::bench::{Bench, Call};
use std::collections::LinkedList;
use std::marker::PhantomData;
use std::snapshot::Snapshot;

/// What a seat knows.
pub struct View<S, E, R> {
    /// The state that the desk opened with, or none where another seat has taken this one in.
    pub start: Option<S>,
    pub number: u64,
    /// How many seats it has split off, which only the first does.
    pub split_off: u64,
    /// Its own number, and those of the seats that it has taken in.
    pub numbers: LinkedList<u64>,
    /// The calls from those numbers.
    pub calls: LinkedList<Call<E, R>>,
    /// The history, as far as it was seen.
    pub seen: LinkedList<Call<E, R>>,
    /// What the one that had seen less had seen, when it took in a seat last.
    pub front: LinkedList<Call<E, R>>,
    /// What it waits with for its turn.
    pub ticket: Option<u64>,
    pub turn: bool,
}

pub type ViewOf<B> = View<<B as Bench>::State, <B as Bench>::Event, <B as Bench>::Reply>;

/// The rule of a desk.
pub struct OneHistory<B, J> {
    bench: PhantomData<B>,
    journal: PhantomData<J>,
}

impl<B: Bench, J: CallJournal<B::Event, B::Reply>> TableRule<
    Option<KeptOf<B, J>>,
    ViewOf<B>,
    Snapshot<B::State>,
> for OneHistory<B, J> {
    ghost use Rattle.shared_desk.specs.InOrder.{IsInOrder};
    ghost use Rattle.shared_desk.specs.Views.{first_view};

    ghost holds = { λ k. IsInOrder B.steps k.value J.keeps };

    ghost first = { λ k. first_view k.value };
}

/// A ticket is drawn.
pub(crate) struct DrawsTicket;

impl<S, E, R, J> Play<Option<Kept<S, E, R, J>>, View<S, E, R>> for DrawsTicket {
    ghost use Rattle.shared_desk.specs.Steps.{TicketIsDrawn};

    ghost then = { TicketIsDrawn };
}

/// It is seen which ticket is served.
pub(crate) struct LooksForTurn<B, J> {
    bench: PhantomData<B>,
    journal: PhantomData<J>,
}

impl<B: Bench, J: CallJournal<B::Event, B::Reply>> Play<Option<KeptOf<B, J>>, ViewOf<B>>
    for LooksForTurn<B, J> {
    ghost use Rattle.shared_desk.specs.Steps.{TurnIsSeen};

    ghost then = { TurnIsSeen B.steps J.keeps };
}

/// It is seen that what two seats had seen are fronts of one history.
pub(crate) struct LooksAtFront;

impl<S, E, R, J> Play<Option<Kept<S, E, R, J>>, View<S, E, R>> for LooksAtFront {
    ghost use Rattle.shared_desk.specs.Steps.{FrontIsSeen};

    ghost then = { FrontIsSeen };
}

/// A call is counted, and the history has it.
pub(crate) struct CountsCall;

impl<S, E, R, J> Play<Option<Kept<S, E, R, J>>, View<S, E, R>> for CountsCall {
    ghost use Rattle.shared_desk.specs.Steps.{CallIsCounted};

    ghost then = { CallIsCounted };
}

/// The turn is ended.
pub(crate) struct EndsTurn;

impl<S, E, R, J> Play<Option<Kept<S, E, R, J>>, View<S, E, R>> for EndsTurn {
    ghost use Rattle.shared_desk.specs.Steps.{TurnIsEnded};

    ghost then = { TurnIsEnded };
}

/// A seat is split off, or taken in.
pub(crate) struct Sharing;

impl<S, E, R> Split<View<S, E, R>> for Sharing {
    ghost use Rattle.shared_desk.specs.Views.{with_split, new_view};

    ghost left = { with_split };

    ghost right = { new_view };
}

impl<S, E, R> Join<View<S, E, R>> for Sharing {
    ghost use Rattle.shared_desk.specs.Views.{with_joined, spent_view};

    ghost both = { with_joined };

    ghost spent = { spent_view };
}
