ghost use Rattle.std.specs.Prelude.{◌≡◌, Some, None, OnOk, OnErr};
ghost use Rattle.history.specs.Seats.{at_seat, seated};

use std::alloc::AllocError;

/// Puts something at a seat, in a list by seat.
pub fn put_at<T: Drop>(seats: &mut Vec<Option<T>>, seat: u32, value: T) -> Result<(), AllocError>
    ensures put { OnOk result
        (at_seat seats.new.items ≡ seated seat (Some value) (at_seat seats.old.items)) }
    ensures err { OnErr result (seats.new.items ≡ seats.old.items) }
{
    let place = seat as usize;
    seats.reserve((place + 1).saturating_sub(seats.len()))?;
    while seats.len() <= place {
        seats.push_reserved(None);
    }
    seats[place] = Some(value);
    Ok(())
}

/// Puts nothing at a seat.
pub fn clear_at<T: Drop>(seats: &mut Vec<Option<T>>, seat: u32)
    ensures { at_seat seats.new.items ≡ seated seat None (at_seat seats.old.items) }
{
    let place = seat as usize;
    if place < seats.len() {
        seats[place] = None;
    }
}
