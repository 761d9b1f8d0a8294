//! Two seats with one book.
ghost use Rattle.std.specs.Prelude.{◌≡◌, ℕ, ◌+◌, ◌<◌, ◌≤◌, List, [], ◌∷◌, ◌++◌, length, IfOk, OnOk};
ghost use Rattle.turn_latch.specs.Histories.{Begins, of};
ghost use Rattle.turn_latch.specs.Views.{seen_of};
ghost use Rattle.turn_latch.specs.Words.{latch_of, seat_latch, knows};
ghost use Rattle.latch_runs.specs.Books.{entry, by, entries_of, history};

use crate::ask::Ask;
use crate::book::{Add, Book};
use std::alloc::{AllocError, Global};
use std::sync::Wait;
use std::thread;
use std::thread::{Threads, join};
use turn_latch::{Busy, Latch, Seat, SeatList};

/// Adds one amount under the seat's number. It waits for its turn.
pub fn add_one<R: Wait>(
    rt: &R,
    latch: &Latch<Book>,
    seat: &mut Seat<Book>,
    amount: u64,
) -> Result<u64, AllocError>
    requires { seat_latch seat.old ≡ latch_of latch.now }
    ensures latch { seat_latch seat.new ≡ seat_latch seat.old }
    ensures number { (knows seat.new).number ≡ (knows seat.old).number }
    ensures added { let n = (knows seat.old).number in OnOk result (of by n (seen_of history (knows seat.new).seen) ≡ of by n (seen_of history (knows seat.old).seen) ++ entry n amount ∷ []) }
{
    let number = seat.number();
    for _ in rt.forever() {
        let work = Add {
            seat: number,
            amount,
        };
        match latch.try_turn(seat, work) {
            Ok(answer) => return answer,
            Err(Busy(_)) => thread::yield_now(),
        }
    }
    unreachable!()
}

/// Adds all amounts, in order, under the seat's number. It waits for its turns.
pub fn add_all<R: Wait>(
    rt: &R,
    latch: &Latch<Book>,
    seat: &mut Seat<Book>,
    amounts: &[u64],
) -> Result<(), AllocError>
    requires { seat_latch seat.old ≡ latch_of latch.now }
    ensures latch { seat_latch seat.new ≡ seat_latch seat.old }
    ensures number { (knows seat.new).number ≡ (knows seat.old).number }
    ensures added { let n = (knows seat.old).number in OnOk result (of by n (seen_of history (knows seat.new).seen) ≡ of by n (seen_of history (knows seat.old).seen) ++ entries_of n amounts.now) }
{
    for amount in amounts {
        add_one(rt, latch, seat, *amount)?;
    }
    Ok(())
}

/// The same, with a new seat handed in and out.
fn add_as<R: Wait>(
    rt: &R,
    latch: &Latch<Book>,
    mut seat: Seat<Book>,
    amounts: &[u64],
) -> (Seat<Book>, Result<(), AllocError>)
    requires latch { seat_latch seat ≡ latch_of latch.now }
    requires own { of by (knows seat).number (seen_of history (knows seat).seen) ≡ [] }
    ensures latch { seat_latch result.0 ≡ latch_of latch.now }
    ensures number { (knows result.0).number ≡ (knows seat).number }
    ensures added { OnOk result.1 (of by (knows seat).number (seen_of history (knows result.0).seen) ≡ entries_of (knows seat).number amounts.now) }
{
    let done = add_all(rt, latch, &mut seat, amounts);
    (seat, done)
}

/// Two threads add their amounts to one book. In its history each has just its own, in order.
pub fn both<R: Threads + Wait + Sync>(
    rt: &R,
    alloc: Global,
    a: &[u64],
    b: &[u64],
) -> Result<Book, AllocError>
    ensures { IfOk result (λ k. (of by 1 k.entries.items ≡ entries_of 1 a.now) × (of by 2 k.entries.items ≡ entries_of 2 b.now)) }
{
    let mut seats = Vec::with_capacity(alloc, 2)?;
    let Ok((latch, mut first)) = Latch::new(alloc, Book::new(alloc)) else {
        return Err(AllocError);
    };
    let one = latch.split(&mut first);
    let two = latch.split(&mut first);
    let ((one, x), (two, y)) = join(
        rt,
        || -> (Seat<Book>, Result<(), AllocError>)
            requires { (seat_latch one ≡ latch_of latch) × ((knows one).number ≡ 1) × (of by 1 (seen_of history (knows one).seen) ≡ []) }
            ensures { (seat_latch result.0 ≡ latch_of latch) × ((knows result.0).number ≡ 1) × OnOk result.1 (of by 1 (seen_of history (knows result.0).seen) ≡ entries_of 1 a.entry.now) }
        { add_as(rt, &latch, one, a) },
        || -> (Seat<Book>, Result<(), AllocError>)
            requires { (seat_latch two ≡ latch_of latch) × ((knows two).number ≡ 2) × (of by 2 (seen_of history (knows two).seen) ≡ []) }
            ensures { (seat_latch result.0 ≡ latch_of latch) × ((knows result.0).number ≡ 2) × OnOk result.1 (of by 2 (seen_of history (knows result.0).seen) ≡ entries_of 2 b.entry.now) }
        { add_as(rt, &latch, two, b) },
    );
    x?;
    y?;
    seats.push_reserved(one);
    seats.push_reserved(two);
    Ok(latch.close(first, SeatList::from_vec(seats)))
}

/// The seat `b` adds an amount, and then the seat `a` meets it and has seen all that `b` has. The answer is the entry's
/// place.
pub fn add_and_meet(
    latch: &Latch<Book>,
    a: &mut Seat<Book>,
    b: &mut Seat<Book>,
    amount: u64,
) -> Result<Result<u64, AllocError>, Busy>
    requires { (seat_latch a.old ≡ latch_of latch.now) × (seat_latch b.old ≡ latch_of latch.now) }
    ensures latch { (seat_latch a.new ≡ seat_latch a.old) × (seat_latch b.new ≡ seat_latch b.old) }
    ensures sees { OnOk result (Begins (seen_of history (knows a.new).seen) (seen_of history (knows b.new).seen)) }
{
    let work = Add {
        seat: b.number(),
        amount,
    };
    let answer = latch.try_turn(b, work)?;
    latch.meet(a, b);
    Ok(answer)
}

/// While the seat holds a turn, another one asks for a turn.
pub fn ask_while_held(
    latch: &Latch<Book>,
    seat: &mut Seat<Book>,
    other: Seat<Book>,
) -> Result<Result<Result<u64, AllocError>, Busy>, Busy>
    requires { (seat_latch seat.old ≡ latch_of latch.now) × (seat_latch other ≡ latch_of latch.now) }
    ensures { seat_latch seat.new ≡ seat_latch seat.old }
{
    let work = Ask {
        seat: seat.number(),
        latch,
        other,
        amount: 0,
    };
    latch.try_turn(seat, work)
}
