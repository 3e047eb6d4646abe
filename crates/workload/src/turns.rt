ghost use Rattle.std.specs.Prelude.{◌≡◌, ◌<◌, true, map, pos, IfOk, option_map};
ghost use Rattle.std.specs.List.{list_all};
ghost use Rattle.std.specs.Option.{SomeIff};
ghost use Rattle.basis.specs.UnlessMemory.{UnlessMemory};
ghost use Rattle.workload.specs.Files.{AreTurns, HasTurnsFault};
ghost use Rattle.workload.specs.Seats.{is_seat, are_seats};

use crate::fault::WorkFault;
use crate::limits::SEATS;
use basis::{Items, OrMemory};
use json_texts::shape::{Shape, array_of};
use json_texts::{NotJson, read_json};
use serde_json::Value as Json;
use std::alloc::{AllocError, Global};
use std::marker::Model;

/// A turn of a seat. Contracts see the number of the seat.
#[derive(Clone, Copy, PartialEq, Eq)]
pub struct Turn {
    seat: u8,
}

impl Model for Turn {
    ghost use Rattle.std.specs.Prelude.{ℕ, ◌<◌};
    ghost use Rattle.workload.specs.declared.limits.TheConstants.{SEATS};

    ghost Value = { ℕ };

    ghost inverse = { λ seat. record { seat = seat } };

    ghost view = { λ turn. turn.seat };

    ghost invariant = { λ turn. turn.seat < SEATS };
}

impl Turn {
    /// The turn of a seat, or `None` where there is no such seat.
    pub fn new(seat: u8) -> Option<Turn>
        ensures { SomeIff result (seat < SEATS) seat }
    {
        if seat < SEATS {
            Some(Turn { seat })
        } else {
            None
        }
    }

    /// The number of its seat.
    pub fn seat(self) -> u8
        ensures seat { result ≡ self }
        ensures within { result < SEATS }
    {
        self.seat
    }
}

/// Turns, in order.
pub type Turns = Items<Turn>;

/// The turns from the bytes of a file.
pub fn read_turns(alloc: Global, bytes: &[u8]) -> Result<Turns, OrMemory<WorkFault>>
    ensures { UnlessMemory (AreTurns bytes.now) (HasTurnsFault bytes.now) result }
{
    let json = match read_json(alloc, bytes) {
        Ok(json) => json,
        Err(OrMemory::Memory) => return Err(OrMemory::Memory),
        Err(OrMemory::Other(NotJson)) => return Err(OrMemory::Other(WorkFault::NotJson)),
    };
    let Some(numbers) = array_of::<NumberShape>(alloc, json)? else {
        return Err(OrMemory::Other(WorkFault::OtherShape));
    };
    match turns_of(alloc, numbers.as_slice())? {
        Some(turns) => Ok(turns),
        None => Err(OrMemory::Other(WorkFault::BeyondLimit)),
    }
}

/// The turns of the seats with these numbers, or `None` where there is no such seat.
fn turns_of(alloc: Global, numbers: &[i64]) -> Result<Option<Turns>, AllocError>
    ensures { let seats = list_all is_seat numbers.now ≡ true in
        IfOk result (λ o. SomeIff (option_map (map pos) o) seats numbers.now) }
{
    let mut turns = Vec::with_capacity(alloc, numbers.len())?;
    for number in numbers {
        match turn_of(*number) {
            Some(turn) => turns.push(turn)?,
            None => return Ok(None),
        }
    }
    Ok(Some(Items::from_vec(turns)))
}

fn turn_of(number: i64) -> Option<Turn>
    ensures { SomeIff (option_map pos result) (is_seat number ≡ true) number }
{
    Turn::new(u8::try_from(number).ok()?)
}

/// The shape of a whole number.
struct NumberShape;

impl Shape for NumberShape {
    ghost use Rattle.json_texts.specs.Shapes.{whole_number_of};

    type Given = i64;

    ghost given = { whole_number_of };

    fn read(_alloc: Global, json: Json) -> Result<Option<i64>, AllocError> {
        Ok(json.as_i64())
    }
}
