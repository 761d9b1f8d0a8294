use super::*;
use std::alloc::{AllocError, Global};
use std::process::Abort;
use std::test::*;
use turn_latch::{Busy, Latch};

/// How many turns each of two seats takes.
const TURNS: u64 = 100_000;

/// The numbers from 0, so many of them.
fn numbers(alloc: Global, count: u64) -> Result<Vec<u64>, AllocError> {
    let mut numbers = Vec::new(alloc);
    for number in 0..count {
        numbers.push(number)?;
    }
    Ok(numbers)
}

/// Whether the entries of a seat are the numbers from 0 to the count, in order.
fn has_each_once(book: &Book, seat: u64, count: u64) -> bool {
    let mut next = 0u64;
    for entry in &book.entries {
        if entry.seat == seat {
            if entry.amount != next {
                return false;
            }
            next = next.wrapping_add(1);
        }
    }
    next == count
}

#[test]
fn two_threads_take_turns_and_no_entry_is_lost_or_doubled(rt: HostRuntime) -> Result<(), Fail> {
    let amounts = numbers(rt.alloc(), TURNS)?;
    let book = both(&rt, rt.alloc(), &amounts, &amounts)?;
    assert_eq!(&rt; book.entries.len(), 200_000);
    assert!(&rt; has_each_once(&book, 1, TURNS));
    assert!(&rt; has_each_once(&book, 2, TURNS));
    Ok(())
}

#[test]
fn a_seat_that_meets_another_sees_its_entries(rt: HostRuntime) -> Result<(), Fail> {
    let made = Latch::new(rt.alloc(), Book::new(rt.alloc())).ok();
    let (latch, mut first) = made.ok_or("a latch")?;
    let mut one = latch.split(&mut first);
    let mut two = latch.split(&mut first);
    let places = [
        add_and_meet(&latch, &mut one, &mut two, 7),
        add_and_meet(&latch, &mut two, &mut one, 8),
        add_and_meet(&latch, &mut first, &mut two, 9),
    ];
    let mut next = 0u64;
    for place in &places {
        assert!(&rt; matches!(place, Ok(Ok(place)) if *place == next));
        next = next.wrapping_add(1);
    }
    Ok(())
}

#[test]
fn busy_tells_the_word_that_was_found(rt: HostRuntime) -> Result<(), Fail> {
    let made = Latch::new(rt.alloc(), Book::new(rt.alloc())).ok();
    let (latch, mut first) = made.ok_or("a latch")?;
    let mut one = latch.split(&mut first);
    let two = latch.split(&mut first);
    let three = latch.split(&mut first);
    let empty = ask_while_held(&latch, &mut one, two);
    assert!(&rt; matches!(empty, Ok(Err(Busy(1)))));
    assert!(&rt; matches!(add_and_meet(&latch, &mut first, &mut one, 5), Ok(Ok(0))));
    assert!(&rt; matches!(add_and_meet(&latch, &mut first, &mut one, 6), Ok(Ok(1))));
    let two_entries = ask_while_held(&latch, &mut one, three);
    assert!(&rt; matches!(two_entries, Ok(Err(Busy(5)))));
    Ok(())
}

#[test]
fn all_64_seats_are_split_off_and_closed(rt: HostRuntime) -> Result<(), Fail> {
    let book = every_seat(rt.alloc())?;
    assert_eq!(&rt; book.entries.len(), 64);
    let mut next = 1u64;
    for entry in &book.entries {
        assert_eq!(&rt; entry.seat, next);
        assert_eq!(&rt; entry.amount, next);
        next = next.wrapping_add(1);
    }
    Ok(())
}
