//! All the seats that a latch has.
ghost use Rattle.std.specs.Prelude.{◌≡◌, ℕ, ◌+◌, ◌<◌, ◌≤◌, OnOk};
ghost use Rattle.turn_latch.specs.Words.{latch_of, seat_latch, knows};
ghost use Rattle.latch_runs.specs.Crews.{IsCrew};

use crate::book::{Add, Book};
use std::alloc::{AllocError, Global};
use turn_latch::{Latch, Seat, SeatList};

/// Splits a seat off, which adds its own number to the book.
pub fn one_more(
    latch: &Latch<Book>,
    first: &mut Seat<Book>,
    seats: &mut Vec<Seat<Book>>,
) -> Result<(), AllocError>
    requires latch { seat_latch first.old ≡ latch_of latch.now }
    requires first { ((knows first.old).number ≡ 0) × ((knows first.old).made < 64) }
    requires crew { IsCrew (latch_of latch.now) (knows first.old).made seats.old.items }
    ensures latch { seat_latch first.new ≡ seat_latch first.old }
    ensures first { ((knows first.new).number ≡ 0) × ((knows first.new).made ≡ (knows first.old).made + 1) }
    ensures crew { OnOk result (IsCrew (latch_of latch.now) (knows first.new).made seats.new.items) }
{
    let mut seat = latch.split(first);
    let number = seat.number();
    let work = Add {
        seat: number,
        amount: u64::from(number),
    };
    match latch.try_turn(&mut seat, work) {
        Ok(Ok(_)) => {}
        _ => return Err(AllocError),
    }
    seats.push(seat)?;
    Ok(())
}

/// A book to which each of the 64 seats has added its number.
pub fn every_seat(alloc: Global) -> Result<Book, AllocError> {
    let Ok((latch, mut first)) = Latch::new(alloc, Book::new(alloc)) else {
        return Err(AllocError);
    };
    let mut seats = Vec::new(alloc);
    for _ in 0..64 {
        if first.made() >= 64 {
            break;
        }
        one_more(&latch, &mut first, &mut seats)?;
    }
    Ok(latch.close(first, SeatList::from_vec(seats)))
}
