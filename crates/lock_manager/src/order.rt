//! Locks in the order of their indexes, and in an index of their low ends.
ghost use Rattle.std.specs.Prelude.{◌≡◌, ◌+◌, ◌<◌, ◌≤◌, ◌∷◌, [], IsTrue, ◌↔◌};
ghost use Rattle.std.specs.Ordering.{nat_cmp, is_lt};
ghost use Rattle.std.specs.Cmp.Lexicographic.{slice_cmp};
ghost use Rattle.std.specs.Vec.{vec_len, vec_capacity};
ghost use Rattle.lock_manager.specs.Order.{IsPoint, IsCount, AreInOrder, is_before, is_after, is_past};
ghost use Rattle.lock_manager.specs.Table.{HasGained};

use iv_types::{Interval, Want};
use std::cmp::Ordering;

/// Whether an interval is that of one key.
pub fn is_point(interval: &Interval) -> bool
    ensures { IsTrue result ↔ IsPoint interval.now }
{
    match &interval.high {
        None => false,
        Some(high) => match high.as_slice().split_last() {
            None => false,
            Some((last, front)) => *last == 0 && front == interval.low.as_slice(),
        },
    }
}

// Whether a low end of an index comes before another one.
fn comes_before(index: u32, low: &[u8], other_index: u32, other_low: &[u8]) -> bool
    ensures { result ≡ is_lt (slice_cmp nat_cmp (index ∷ low.now) (other_index ∷ other_low.now)) }
{
    match index.cmp(&other_index) {
        Ordering::Less => true,
        Ordering::Equal => low.cmp(&other_low).is_lt(),
        Ordering::Greater => false,
    }
}

// Whether a lock stands before this low end of this index.
fn stands_before(lock: &Want, index: u32, low: &[u8]) -> bool
    ensures { result ≡ is_before (index ∷ low.now) lock.now }
{
    comes_before(lock.index, lock.interval.low.as_slice(), index, low)
}

/// Whether a lock stands after this low end of this index.
pub fn stands_after(lock: &Want, index: u32, low: &[u8]) -> bool
    ensures { result ≡ is_after (index ∷ low.now) lock.now }
{
    match lock.index.cmp(&index) {
        Ordering::Less => false,
        Ordering::Equal => lock.interval.low.as_slice().cmp(&low).is_gt(),
        Ordering::Greater => true,
    }
}

/// Whether a low end of an index comes at the high end of this lock's interval or behind it.
pub fn comes_past(index: u32, low: &[u8], want: &Want) -> bool
    ensures { result ≡ is_past index low.now want.now.index want.now.interval.high }
{
    match &want.interval.high {
        None => want.index < index,
        Some(high) => !comes_before(index, low, want.index, high.as_slice()),
    }
}

/// How many locks stand before this low end of this index.
pub fn count_before(locks: &[Want], index: u32, low: &[u8]) -> usize
    requires { AreInOrder locks.now }
    ensures { IsCount (index ∷ low.now) locks.now result }
{
    locks.partition_point(|lock| stands_before(lock, index, low))
}

/// Puts a lock among others, into room that was made.
pub fn put(locks: &mut Vec<Want>, lock: Want)
    requires order { AreInOrder locks.old.items }
    requires room { vec_len locks.old < vec_capacity locks.old }
    ensures gained { HasGained locks.old.items (lock ∷ []) locks.new.items }
    ensures order { AreInOrder locks.new.items }
    ensures len { vec_len locks.new ≡ vec_len locks.old + 1 }
    ensures capacity { vec_capacity locks.old ≤ vec_capacity locks.new }
{
    let at = count_before(locks, lock.index, lock.interval.low.as_slice());
    match locks.insert(at, lock) {
        Ok(()) => {}
        Err(_) => unreachable!(),
    }
}
