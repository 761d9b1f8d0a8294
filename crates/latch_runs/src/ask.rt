//! A turn in which another seat asks for one.
ghost use Rattle.std.specs.Prelude.{◌≡◌, ◌≢◌, ℕ};
ghost use Rattle.turn_latch.specs.Words.{latch_of, seat_latch};

use crate::book::{Add, Book};
use std::alloc::AllocError;
use turn_latch::{Busy, Latch, Seat, Turn};

/// While the turn is held, another seat asks for a turn to add an amount.
#[derive(Drop)]
pub struct Ask<'a> {
    pub seat: u32,
    pub latch: &'a Latch<Book>,
    pub other: Seat<Book>,
    pub amount: u64,
}

impl<'a> Turn<Book> for Ask<'a> {
    type Out = Result<Result<u64, AllocError>, Busy>;

    ghost seat = { λ w. w.seat };

    ghost needs = { λ w b. seat_latch w.other ≡ latch_of w.latch.now };

    ghost does = { λ w b r b'. b' ≡ b };

    fn number(&self) -> u32 {
        self.seat
    }

    fn turn(self, book: &mut Book) -> Result<Result<u64, AllocError>, Busy> {
        let _book = &*book;
        let Ask {
            seat: _,
            latch,
            mut other,
            amount,
        } = self;
        let work = Add {
            seat: other.number(),
            amount,
        };
        latch.try_turn(&mut other, work)
    }
}
