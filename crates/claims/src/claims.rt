ghost use Rattle.std.specs.Prelude.{◌≡◌, ◌<◌, ◌≤◌, ◌^◌, ◌∷◌, IsTrue, IsPermutation};
ghost use Rattle.std.specs.Prelude.{IfOk, None, IfSome, IfNone};
ghost use Rattle.claims.specs.Lists.{numbers_below, IsGreaterThanAll, IsLeastOf};
ghost use Rattle.claims.specs.Seats.{IsSeatOf, first_seat, with_view, joint_seat};
ghost use Rattle.claims.specs.Views.{all_parts, with_drawn, with_none_left, with_lowered, with_bound, rest_of, part_of};

use crate::rule::{Draw, EachOnce, Look, Lower, Parts};
use crate::view::View;
use atomic_table::{Seat, Table};
use std::alloc::{AllocError, Global};
use std::marker::Model;

/// The word of the table that has the next number to draw.
const NEXT: usize = 0;

/// The word that has the least.
const LEAST: usize = 1;

/// Numbers from 0 up to a limit, which any threads draw, and the least, which they lower. No call waits
/// for another thread. Contracts see which numbers these are.
#[derive(Drop)]
pub struct Claims {
    table: Table<(), View, u64, EachOnce, Global>,
    limit: u64,
}

impl Model for Claims {
    ghost use Rattle.claims.specs.Seats.{Numbers};

    ghost Value = { Numbers };

    ghost use Rattle.claims.specs.Inside.{numbers_in, IsTable};

    ghost view = { numbers_in };

    ghost invariant = { IsTable };
}

/// What one thread draws with. Contracts see what it knows.
#[derive(Drop)]
pub struct ClaimSeat {
    seat: Seat<(), View>,
    none_left: bool,
}

impl Model for ClaimSeat {
    ghost use Rattle.claims.specs.Seats.{Seat};

    ghost Value = { Seat };

    ghost use Rattle.claims.specs.Inside.{seat_in, IsLive};

    ghost view = { seat_in };

    ghost invariant = { IsLive };
}

/// What all seats together drew and lowered to.
#[derive(Drop)]
pub struct Closed {
    /// How many numbers were drawn.
    pub drawn: u64,
    /// The least number that was lowered to, or the limit.
    pub least: u64,
}

impl Claims {
    /// All numbers below the limit are there to draw, and the least is the limit.
    pub fn new(alloc: Global, limit: u64) -> Result<(Claims, ClaimSeat), AllocError>
        requires { limit < 2 ^ 63 }
        ensures limit { IfOk result (λ made. made.0.limit ≡ limit) }
        ensures seat { IfOk result (λ made. made.1 ≡ first_seat made.0) }
    {
        let (table, seat) = Table::of_words(alloc, &[0, limit], &limit)?;
        let seat = ClaimSeat {
            seat,
            none_left: false,
        };
        Ok((Claims { table, limit }, seat))
    }

    /// A seat for one more thread. It has one of the parts of the other.
    pub fn split(&self, seat: &mut ClaimSeat) -> ClaimSeat
        requires own { IsSeatOf self.now seat.old }
        requires room { 1 < seat.old.view.parts }
        ensures rest { seat.new ≡ with_view rest_of seat.old }
        ensures part { result ≡ with_view part_of seat.old }
    {
        ClaimSeat {
            seat: self.table.shared.split_seat::<Parts>(&mut seat.seat),
            none_left: seat.none_left,
        }
    }

    /// Takes in the seat of a thread that is done.
    pub fn join(&self, seat: &mut ClaimSeat, other: ClaimSeat)
        requires own { IsSeatOf self.now seat.old }
        requires other { IsSeatOf self.now other }
        ensures { seat.new ≡ joint_seat seat.old other }
    {
        let ClaimSeat {
            seat: taken,
            none_left,
        } = other;
        self.table.shared.join_seat::<Parts>(&mut seat.seat, taken);
        seat.none_left = seat.none_left || none_left;
    }

    /// The next number, or `None`: then all are drawn, as `close` tells.
    pub fn draw(&self, seat: &mut ClaimSeat) -> Option<u64>
        requires { IsSeatOf self.now seat.old }
        ensures below { IfSome result (λ number. number < self.now.limit) }
        ensures some { IfSome result (λ number.
            seat.new ≡ with_view (with_drawn number) seat.old) }
        ensures rises { IfSome result (λ number. IsGreaterThanAll seat.old.view.drawn number) }
        ensures none { IfNone result (seat.new ≡ with_view with_none_left seat.old) }
        ensures stays { IsTrue seat.old.view.none_left → result ≡ None }
    {
        if seat.none_left {
            return None;
        }
        let number = self.table.shared.fetch_add::<Draw>(&mut seat.seat, NEXT, 1);
        if number < self.limit {
            Some(number)
        } else {
            seat.none_left = true;
            None
        }
    }

    /// Lowers the least to a number, where it is greater.
    pub fn lower(&self, seat: &mut ClaimSeat, number: u64)
        requires { IsSeatOf self.now seat.old }
        ensures { seat.new ≡ with_view (with_lowered number) seat.old }
    {
        self.table
            .shared
            .fetch_min::<Lower>(&mut seat.seat, LEAST, number);
    }

    /// The least so far.
    pub fn least(&self, seat: &mut ClaimSeat) -> u64
        requires { IsSeatOf self.now seat.old }
        ensures within { result ≤ seat.old.view.bound }
        ensures seen { seat.new ≡ with_view (with_bound result) seat.old }
    {
        self.table.shared.load::<Look>(&mut seat.seat, LEAST)
    }

    /// Ends the drawing. The seat has taken in all others.
    pub fn close(self, seat: ClaimSeat) -> Closed
        requires own { IsSeatOf self seat }
        requires whole { seat.view.parts ≡ all_parts }
        ensures once { IsPermutation seat.view.drawn (numbers_below result.drawn) }
        ensures within { result.drawn ≤ self.limit }
        ensures all { IsTrue seat.view.none_left → result.drawn ≡ self.limit }
        ensures least { IsLeastOf (self.limit ∷ seat.view.lowered) result.least }
        ensures bound { result.least ≤ seat.view.bound }
    {
        let Claims { table, limit } = self;
        let ClaimSeat { seat, none_left: _ } = seat;
        let closed = table.close_with(seat);
        let next = closed.word(NEXT);
        let least = closed.word(LEAST);
        closed.free();
        Closed {
            drawn: next.min(limit),
            least,
        }
    }
}
