//! The desk and its seats.
ghost use Rattle.std.specs.Prelude.{◌≡◌, ◌<◌, ◌+◌, [], false, length, IfOk, OnErr};
ghost use Rattle.desk.specs.Runs.{Runs, StartsWith};
ghost use Rattle.shared_desk.specs.Kept.{calls_of, KeepsCalls, MayTake};
ghost use Rattle.shared_desk.specs.Views.{seats, HasAllSeats, first_view, with_split, new_view};
ghost use Rattle.shared_desk.specs.Views.{longer, shorter, with_joined};
ghost use Rattle.shared_desk.specs.Calls.{MayCall, HasCalled, HasSeen, HaveSameCalls};
ghost use Rattle.shared_desk.specs.InOrder.{waiting, IsAfter};
ghost use Rattle.shared_desk.specs.Steps.{Rests, HasTurn, HasTaken, HasEmptySlot, HasNewCall, HasFullSlot, HasCounted, EndsWithCall, with_ticket};

use crate::kept::{CallJournal, KeptOf, make_call, opened};
use crate::rule::{
    CountsCall, DrawsTicket, EndsTurn, LooksAtFront, LooksForTurn, OneHistory, Sharing, ViewOf,
};
use atomic_table::{Seat, Table};
use desk::bench::Bench;
use std::alloc::{AllocError, Global};
use std::hint;
use std::snapshot::Snapshot;
use std::sync::Wait;
use std::thread::Parker;
use std::time::Duration;

/// How many seats a desk may have.
pub const MOST_SEATS: u64 = 4_294_967_296;

/// How often a seat looks for its turn, or for a desk where nobody is, before it sleeps.
const LOOKS_AWAKE: u32 = 64;

/// How often a seat naps before it draws its ticket though others are at the desk.
const MOST_NAPS: u32 = 4;

/// How long the shortest nap is, in microseconds: long beside a turn, so that it pays to sleep.
const SHORTEST_NAP: u64 = 100;

/// How often a nap is doubled at most.
const MOST_DOUBLINGS: u32 = 5;

// The words of the table.
const NEXT: usize = 0;

const SERVED: usize = 1;

const COUNT: usize = 2;

type SeatOf<B, J> = Seat<Option<KeptOf<B, J>>, ViewOf<B>>;

/// A bench that many threads call, each from a seat of its own, and a journal of all calls. The state after them and
/// the journal lie in a slot of a table, which is with the seat that has its turn.
#[derive(Drop)]
pub struct Desk<B: Bench, J: CallJournal<B::Event, B::Reply>> {
    table: Table<Option<KeptOf<B, J>>, ViewOf<B>, Snapshot<B::State>, OneHistory<B, J>, Global>,
    ghost three_words: { table.shared.table_id.words ≡ 3 },
    ghost one_slot: { table.shared.table_id.slots ≡ 1 },
}

/// What a thread calls with. Between its calls it has neither ticket nor turn nor slot. Where one is dropped,
/// its desk can't be closed any more.
#[derive(Drop)]
pub struct DeskSeat<B: Bench, J> {
    seat: SeatOf<B, J>,
    number: u32,
    split_off: u32,
    /// How many of its last calls in a row met others at the desk, as far as naps are doubled for them.
    met: u32,
    ghost number_is: { number ≡ seat.me.0.number },
    ghost split_off_is: { split_off ≡ seat.me.0.split_off },
    ghost no_slot: { length seat.me.1 ≡ 0 },
    ghost no_ticket: { waiting seat.me.0 ≡ 0 },
    ghost no_turn: { seat.me.0.turn ≡ false },
    ghost live: { 0 < seats seat.me.0 },
}

impl<B: Bench, J: CallJournal<B::Event, B::Reply>> Desk<B, J> {
    ghost use Rattle.shared_desk.specs.Seats.{view, start_of, IsSeatOf, IsAtDesk};

    /// A desk that opens in this state, and its first seat. The journal has taken in nothing.
    pub fn new(
        alloc: Global,
        state: B::State,
        journal: J,
    ) -> Result<(Desk<B, J>, DeskSeat<B, J>), AllocError>
        requires { J.keeps [] journal }
        ensures start { IfOk result (λ r. start_of r.0 ≡ state) }
        ensures own { IfOk result (λ r. IsSeatOf r.0 r.1) }
        ensures first { IfOk result (λ r. view r.1 ≡ first_view state) }
    {
        let about = Snapshot::of(&state);
        let mut slots = Vec::new(alloc);
        slots.reserve(1)?;
        slots.push_reserved(Some(opened(alloc, state, journal)));
        let Ok((table, seat)) = Table::new(alloc, &[0, 0, 0], slots, &about) else {
            return Err(AllocError);
        };
        let first = DeskSeat {
            seat,
            number: 0,
            split_off: 0,
            met: 0,
        };
        Ok((Desk { table }, first))
    }

    /// A new seat, for another thread. Only the first seat may split one off.
    pub fn split(&self, seat: &mut DeskSeat<B, J>) -> DeskSeat<B, J>
        requires own { IsSeatOf self.now seat.old }
        requires first { (view seat.old).number ≡ 0 }
        requires room { (view seat.old).split_off + 1 < MOST_SEATS }
        ensures own { IsSeatOf self.now seat.new }
        ensures counted { view seat.new ≡ with_split (view seat.old) }
        ensures new_own { IsSeatOf self.now result }
        ensures new { view result ≡ new_view (view seat.old) }
    {
        seat.split_off += 1;
        DeskSeat {
            number: seat.split_off,
            seat: self.table.shared.split_seat::<Sharing>(&mut seat.seat),
            split_off: 0,
            met: 0,
        }
    }

    /// Takes in a seat whose thread is done.
    pub fn join(&self, seat: &mut DeskSeat<B, J>, other: DeskSeat<B, J>)
        requires own { IsSeatOf self.now seat.old }
        requires other_own { IsSeatOf self.now other }
        ensures own { IsSeatOf self.now seat.new }
        ensures joined { view seat.new ≡ with_joined (view seat.old) (view other) }
        ensures front { let ours = (view seat.old).seen in let theirs = (view other).seen in
            StartsWith (longer ours theirs) (shorter ours theirs) }
    {
        let DeskSeat {
            seat: taken_in,
            number: _,
            split_off: _,
            met: _,
        } = other;
        self.table
            .shared
            .join_seat::<Sharing>(&mut seat.seat, taken_in);
        self.table
            .shared
            .load::<LooksAtFront>(&mut seat.seat, SERVED);
    }

    /// Waits for the seat's turn, and makes the call in it. No clause says that the turn comes.
    pub fn call<R: Wait>(
        &self,
        rt: &R,
        seat: &mut DeskSeat<B, J>,
        event: B::Event,
    ) -> Result<B::Reply, AllocError>
        requires own { IsSeatOf self.now seat.old }
        requires may { MayCall B.steps (start_of self.now) B.may (view seat.old) event }
        requires take { MayTake J.may_take (view seat.old).number event }
        ensures own { IsSeatOf self.now seat.new }
        ensures called { IfOk result (λ reply.
            HasCalled B.steps (start_of self.now) (view seat.old) event reply (view seat.new)) }
        ensures err { OnErr result (
            HasSeen B.steps (start_of self.now) (view seat.old) (view seat.new)) }
    {
        let number = seat.number;
        seat.met = self.wait_for_quiet(rt, seat.met);
        self.call_as(rt, &mut seat.seat, number, event)
    }

    /// The whole history, the state after it and its journal, once the first seat has taken in all others.
    pub fn close(self, seat: DeskSeat<B, J>) -> KeptOf<B, J>
        requires own { IsSeatOf self seat }
        requires first { (view seat).number ≡ 0 }
        requires all { HasAllSeats (view seat) }
        ensures runs { Runs B.steps (start_of self) (calls_of result) result.state }
        ensures calls { HaveSameCalls (calls_of result) (view seat).calls }
        ensures seen { StartsWith (calls_of result) (view seat).seen }
        ensures keeps { KeepsCalls J.keeps result }
    {
        let Desk { table } = self;
        let DeskSeat {
            seat,
            number: _,
            split_off: _,
            met: _,
        } = seat;
        let mut closed = table.close_with(seat);
        let slot = closed.take(0);
        closed.free();
        let Some(held) = slot else { unreachable!() };
        held
    }

    // One call, from its ticket to the end of its turn.
    fn call_as<R: Wait>(
        &self,
        rt: &R,
        seat: &mut SeatOf<B, J>,
        number: u32,
        event: B::Event,
    ) -> Result<B::Reply, AllocError>
        requires own { IsAtDesk self.now seat.old }
        requires number { number ≡ seat.old.me.0.number }
        requires rests { Rests seat.old.me }
        requires may { MayCall B.steps (start_of self.now) B.may seat.old.me.0 event }
        requires take { MayTake J.may_take number event }
        ensures own { IsAtDesk self.now seat.new }
        ensures no_slot { seat.new.me.1 ≡ [] }
        ensures called { IfOk result (λ reply.
            HasCalled B.steps (start_of self.now) seat.old.me.0 event reply seat.new.me.0) }
        ensures err { OnErr result (
            HasSeen B.steps (start_of self.now) seat.old.me.0 seat.new.me.0) }
    {
        let mut held = self.take(rt, seat);
        match make_call::<B, J>(&mut held, number, event) {
            Ok(reply) => {
                self.finish(seat, held);
                Ok(reply)
            }
            Err(error) => {
                self.put_back(seat, held);
                Err(error)
            }
        }
    }

    // Waits for the turn, and takes the value out of the slot.
    fn take<R: Wait>(&self, rt: &R, seat: &mut SeatOf<B, J>) -> KeptOf<B, J>
        requires own { IsAtDesk self.now seat.old }
        requires rests { Rests seat.old.me }
        ensures own { IsAtDesk self.now seat.new }
        ensures taken { HasTaken B.steps (start_of self.now) J.keeps seat.old.me.0
            result seat.new.me }
    {
        self.take_turn(rt, seat);
        let Some(held) = self.table.shared.exchange(seat, 0, None) else {
            unreachable!()
        };
        held
    }

    // Draws a ticket, and waits until it is served.
    fn take_turn<R: Wait>(&self, rt: &R, seat: &mut SeatOf<B, J>)
        requires own { IsAtDesk self.now seat.old }
        requires rests { Rests seat.old.me }
        ensures own { IsAtDesk self.now seat.new }
        ensures turn { HasTurn B.steps (start_of self.now) J.keeps seat.old.me.0 seat.new.me }
    {
        let ticket = self.table.shared.fetch_add::<DrawsTicket>(seat, NEXT, 1);
        let mut looks: u32 = 0;
        for _ in rt.forever() {
            let served = self.table.shared.load::<LooksForTurn<B, J>>(seat, SERVED);
            if served == ticket {
                return;
            }
            if looks < LOOKS_AWAKE {
                looks += 1;
                hint::spin_loop();
            } else {
                self.table
                    .shared
                    .park(rt, SERVED, (served & 0xffff_ffff) as u32);
            }
        }
        unreachable!()
    }

    // Waits a while for a desk where nobody is, and gives how many calls in a row met others by now. Where a thread
    // sleeps with a ticket, all behind it wait until it wakes. So a seat that met others at its last call too naps
    // before it draws one, the longer the more often it did, and one goes on alone meanwhile.
    fn wait_for_quiet<R: Wait>(&self, rt: &R, met: u32) -> u32 {
        if self.is_quiet() {
            return 0;
        }
        if met == 0 && self.is_quiet_soon() {
            return 1;
        }
        let doublings = met.min(MOST_DOUBLINGS);
        for _ in 0..MOST_NAPS {
            Parker::new().park_timeout(rt, Duration::from_micros(SHORTEST_NAP << doublings));
            if self.is_quiet() {
                break;
            }
        }
        doublings + 1
    }

    // Whether nobody was at the desk at one of some looks.
    fn is_quiet_soon(&self) -> bool {
        for _ in 0..LOOKS_AWAKE {
            hint::spin_loop();
            if self.is_quiet() {
                return true;
            }
        }
        false
    }

    // Whether nobody was at the desk.
    fn is_quiet(&self) -> bool {
        let served = self.table.shared.peek(SERVED);
        self.table.shared.peek(NEXT) == served
    }

    // Counts the call that the value has behind what was seen, and ends the turn.
    fn finish(&self, seat: &mut SeatOf<B, J>, held: KeptOf<B, J>)
        requires own { IsAtDesk self.now seat.old }
        requires slot { HasEmptySlot seat.old.me }
        requires call { HasNewCall B.steps (start_of self.now) J.keeps seat.old.me.0 held }
        ensures own { IsAtDesk self.now seat.new }
        ensures end { EndsWithCall seat.old.me.0 held seat.new.me }
    {
        self.count(seat, held);
        self.end_turn(seat);
    }

    // Puts the value into the slot, and counts its last call.
    fn count(&self, seat: &mut SeatOf<B, J>, held: KeptOf<B, J>)
        requires own { IsAtDesk self.now seat.old }
        requires slot { HasEmptySlot seat.old.me }
        requires call { HasNewCall B.steps (start_of self.now) J.keeps seat.old.me.0 held }
        ensures own { IsAtDesk self.now seat.new }
        ensures call { HasCounted seat.old.me.0 held seat.new.me }
    {
        // It tells that a word can count the calls.
        held.calls.len();
        self.table.shared.exchange(seat, 0, Some(held));
        self.table.shared.fetch_add::<CountsCall>(seat, COUNT, 1);
    }

    // Puts the value back as it was, and ends the turn.
    fn put_back(&self, seat: &mut SeatOf<B, J>, held: KeptOf<B, J>)
        requires own { IsAtDesk self.now seat.old }
        requires slot { HasEmptySlot seat.old.me }
        requires kept { IsAfter B.steps (start_of self.now) J.keeps seat.old.me.0.seen held }
        ensures own { IsAtDesk self.now seat.new }
        ensures end { seat.new.me ≡ (with_ticket seat.old.me.0 None, []) }
    {
        self.table.shared.exchange(seat, 0, Some(held));
        self.end_turn(seat);
    }

    // Serves the next ticket; the slot goes home. A seat that draws that ticket later sees by itself that it is served.
    fn end_turn(&self, seat: &mut SeatOf<B, J>)
        requires own { IsAtDesk self.now seat.old }
        requires slot { HasFullSlot B.steps (start_of self.now) J.keeps seat.old.me }
        ensures own { IsAtDesk self.now seat.new }
        ensures end { seat.new.me ≡ (with_ticket seat.old.me.0 None, []) }
    {
        let ended = self.table.shared.fetch_add::<EndsTurn>(seat, SERVED, 1);
        if self.table.shared.peek(NEXT) != ended.wrapping_add(1) {
            self.table.shared.wake_all(SERVED);
        }
    }
}
