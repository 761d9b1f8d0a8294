//! Locks of one key, kept by their keys.
ghost use Rattle.std.specs.Prelude.{◌≡◌, ◌+◌, ◌≤◌, ◌↔◌, [], ◌∷◌, IsTrue};
ghost use Rattle.std.specs.FinMap.{get, entries};
ghost use Rattle.std.specs.List.{Contains};
ghost use Rattle.txn_machine.specs.Locks.{Conflict};
ghost use Rattle.lock_manager.specs.Order.{IsPoint};
ghost use Rattle.lock_manager.specs.Points.{HasAt, MeetsAt, points_of};
ghost use Rattle.lock_manager.specs.Table.{Covers, HasSome, HasGained};

use crate::conflict::lies_in;
use crate::modes::Modes;
use crate::order::{comes_past, is_point};
use iv_types::{Interval, LockMode, Want};
use spare_map::SpareMap;

// Whether a key of an index is held in a mode.
fn has_at(points: &SpareMap<Modes>, index: u32, key: &[u8], mode: LockMode) -> bool
    ensures { IsTrue result ↔ HasAt (get points.now.entries (index, key.now)) mode }
{
    match points.get(index, key) {
        Some(modes) => modes.has(mode),
        None => false,
    }
}

/// Whether this very lock is among the locks of one key.
pub fn point_has(points: &SpareMap<Modes>, want: &Want) -> bool
    ensures { IsTrue result ↔ Contains (points_of (entries points.now.entries)) want.now }
{
    is_point(&want.interval) && has_at(points, want.index, want.interval.low.as_slice(), want.mode)
}

/// Whether one of them is of this mode and has the key of this index.
pub fn point_covers(points: &SpareMap<Modes>, index: u32, key: &[u8], mode: LockMode) -> bool
    ensures { IsTrue result ↔ HasSome (Covers index key.now mode) (points_of (entries points.now.entries)) }
{
    has_at(points, index, key, mode)
}

// Whether a lock of this key of this index conflicts with this one of another session.
fn meets_at(points: &SpareMap<Modes>, index: u32, low: &[u8], want: &Want) -> bool
    ensures { IsTrue result ↔ MeetsAt (get points.now.entries (index, low.now)) (index, low.now) want.now }
{
    if index != want.index {
        return false;
    }
    if !lies_in(low, &want.interval) {
        return false;
    }
    match points.get(index, low) {
        Some(modes) => modes.is_apart(want.mode),
        None => false,
    }
}

/// Whether one of them conflicts with this one of another session. Those from its low end to its high end are looked at.
pub fn point_meets(points: &SpareMap<Modes>, want: &Want) -> bool
    ensures { IsTrue result ↔ HasSome (λ lock. Conflict lock want.now) (points_of (entries points.now.entries)) }
{
    let mut next = points.first_at(want.index, want.interval.low.as_slice());
    while let Some((index, low)) = next {
        if comes_past(index, low, want) {
            return false;
        }
        if meets_at(points, index, low, want) {
            return true;
        }
        next = points.first_after(index, low);
    }
    false
}

/// Adds the lock of one key, into room that was made.
pub fn add_point(points: &mut SpareMap<Modes>, lock: Want)
    requires point { IsPoint lock.interval }
    requires room { 1 ≤ points.old.room }
    ensures gained { HasGained (points_of (entries points.old.entries)) (lock ∷ []) (points_of (entries points.new.entries)) }
    ensures room { points.old.room ≤ points.new.room + 1 }
{
    let Want {
        index,
        interval,
        mode,
    } = lock;
    let Interval { low, high: _ } = interval;
    let held = points.get(index, low.as_slice()).copied();
    match held {
        Some(modes) => {
            points.replace(index, low.as_slice(), modes.with(mode));
        }
        None => points.insert(index, low, Modes::none().with(mode)),
    }
}
