//! The locks that a session holds.
ghost use Rattle.std.specs.Prelude.{◌≡◌, ◌+◌, ◌≤◌, ◌↔◌, [], ◌∷◌, IsTrue, OnOk};
ghost use Rattle.std.specs.List.{Contains};
ghost use Rattle.txn_machine.specs.Locks.{Conflict};
ghost use Rattle.lock_manager.specs.Order.{AreInOrder, HasNoneBefore};
ghost use Rattle.lock_manager.specs.Table.{Covers, HasSome, HasGained, AddAtMost, AreNew};

use crate::conflict::{conflict, covers, is_same};
use crate::modes::Modes;
use crate::order::{comes_past, count_before, is_point, put, stands_after};
use crate::points::{add_point, point_covers, point_has, point_meets};
use iv_types::{LockMode, NoMemory, Want};
use spare_map::SpareMap;
use std::alloc::Global;
use std::marker::Model;

// Whether one of the locks, the first of which don't, conflicts with this one.
fn meets_from(locks: &[Want], start: usize, want: &Want) -> bool
    requires order { AreInOrder locks.now }
    requires before { HasNoneBefore (λ lock. Conflict lock want.now) locks.now start }
    ensures { IsTrue result ↔ HasSome (λ lock. Conflict lock want.now) locks.now }
{
    for at in start..locks.len() {
        let lock = &locks[at];
        if comes_past(lock.index, lock.interval.low.as_slice(), want) {
            return false;
        }
        if conflict(lock, want) {
            return true;
        }
    }
    false
}

// Whether one of the locks, the first of which don't, is of this mode and has the key of this index.
fn covers_from(locks: &[Want], start: usize, index: u32, key: &[u8], mode: LockMode) -> bool
    requires order { AreInOrder locks.now }
    requires before { HasNoneBefore (Covers index key.now mode) locks.now start }
    ensures { IsTrue result ↔ HasSome (Covers index key.now mode) locks.now }
{
    for at in start..locks.len() {
        let lock = &locks[at];
        if stands_after(lock, index, key) {
            return false;
        }
        if covers(lock, index, key, mode) {
            return true;
        }
    }
    false
}

// The same of any locks. Those of lesser indexes are passed over.
fn range_meets(ranges: &[Want], want: &Want) -> bool
    requires { AreInOrder ranges.now }
    ensures { IsTrue result ↔ HasSome (λ lock. Conflict lock want.now) ranges.now }
{
    let start = count_before(ranges, want.index, &[]);
    meets_from(ranges, start, want)
}

fn range_covers(ranges: &[Want], index: u32, key: &[u8], mode: LockMode) -> bool
    requires { AreInOrder ranges.now }
    ensures { IsTrue result ↔ HasSome (Covers index key.now mode) ranges.now }
{
    let start = count_before(ranges, index, &[]);
    covers_from(ranges, start, index, key, mode)
}

// Whether this very lock is among these, the first of which are other ones.
fn has_from(locks: &[Want], start: usize, want: &Want) -> bool
    requires order { AreInOrder locks.now }
    requires before { HasNoneBefore (λ lock. lock ≡ want.now) locks.now start }
    ensures { IsTrue result ↔ HasSome (λ lock. lock ≡ want.now) locks.now }
{
    for at in start..locks.len() {
        let lock = &locks[at];
        if stands_after(lock, want.index, want.interval.low.as_slice()) {
            return false;
        }
        if is_same(lock, want) {
            return true;
        }
    }
    false
}

// Whether this very lock is among these.
fn has(locks: &[Want], want: &Want) -> bool
    requires { AreInOrder locks.now }
    ensures { IsTrue result ↔ HasSome (λ lock. lock ≡ want.now) locks.now }
{
    let start = count_before(locks, want.index, want.interval.low.as_slice());
    has_from(locks, start, want)
}

/// The locks of a session. Those of one key, which are the great majority, stand in a map by their keys, so that they may
/// come in any order. Those of true ranges stand in a list in the order of their indexes and low ends. A search begins at
/// the first that can overlap an interval, of ranges at the first of its index, and goes no further than the last.
#[derive(Drop)]
pub struct Held {
    points: SpareMap<Modes>,
    ranges: Vec<Want>,
}

impl Model for Held {
    ghost use Rattle.std.specs.Prelude.{◌-◌, ◌++◌, min};
    ghost use Rattle.std.specs.FinMap.{entries};
    ghost use Rattle.std.specs.Vec.{vec_len, vec_capacity};
    ghost use Rattle.lock_manager.specs.Order.{HeldLocks, coded_held, AreInOrder};
    ghost use Rattle.lock_manager.specs.Points.{points_of};

    ghost Value = { HeldLocks };

    ghost coded = { coded_held };

    ghost view = { λ h. record { locks = points_of (entries h.points.entries) ++ h.ranges.items; spare = min h.points.room (vec_capacity h.ranges - vec_len h.ranges) } };

    ghost invariant = { λ h. AreInOrder h.ranges.items };
}

impl Held {
    /// No locks, and no memory taken.
    pub fn new(alloc: Global) -> Held
        ensures { result.locks ≡ [] }
    {
        Held {
            points: SpareMap::new(),
            ranges: Vec::new(alloc),
        }
    }

    /// Makes room for that many locks more. An `Err` takes no room away.
    ///
    /// # Errors
    ///
    /// Where there is no memory for them.
    pub fn reserve(&mut self, alloc: Global, more: usize) -> Result<(), NoMemory>
        ensures room { OnOk result (more ≤ self.new.spare) }
        ensures locks { self.new.locks ≡ self.old.locks }
        ensures spare { self.old.spare ≤ self.new.spare }
    {
        self.points.reserve(alloc, more)?;
        self.ranges.reserve(more)?;
        Ok(())
    }

    /// Adds a lock, into room that was made.
    pub fn add(&mut self, want: Want)
        requires { 1 ≤ self.old.spare }
        ensures locks { HasGained self.old.locks (want ∷ []) self.new.locks }
        ensures spare { self.old.spare ≤ self.new.spare + 1 }
    {
        if is_point(&want.interval) {
            add_point(&mut self.points, want);
        } else {
            put(&mut self.ranges, want);
        }
    }

    /// Adds locks, and tells how many of them are new. Room was made for the new ones; the others use none.
    pub fn add_all(&mut self, wants: Vec<Want>) -> usize
        requires { AddAtMost self.old.spare self.old.locks wants.items }
        ensures locks { HasGained self.old.locks wants.items self.new.locks }
        ensures new { AreNew result self.old.locks wants.items }
        ensures spare { self.old.spare ≤ self.new.spare + result }
    {
        let mut left = wants;
        let mut used = 0;
        while let Some(want) = left.pop() {
            if !self.has(&want) {
                self.add(want);
                used += 1;
            }
        }
        used
    }

    /// Takes all locks away. The memory of the list of ranges stays for later ones.
    pub fn clear(&mut self)
        ensures locks { self.new.locks ≡ [] }
    {
        self.points = SpareMap::new();
        self.ranges.clear();
    }

    /// Whether one of the locks conflicts with this one of another session.
    pub fn meets(&self, want: &Want) -> bool
        ensures { IsTrue result ↔ HasSome (λ lock. Conflict lock want.now) self.now.locks }
    {
        point_meets(&self.points, want) || range_meets(&self.ranges, want)
    }

    /// Whether this very lock is among the locks.
    pub fn has(&self, want: &Want) -> bool
        ensures { IsTrue result ↔ Contains self.now.locks want.now }
    {
        point_has(&self.points, want) || has(&self.ranges, want)
    }

    /// Whether there is a lock of exactly this mode on this index whose interval has the key.
    pub fn holds(&self, index: u32, key: &[u8], mode: LockMode) -> bool
        ensures { IsTrue result ↔ HasSome (Covers index key.now mode) self.now.locks }
    {
        point_covers(&self.points, index, key, mode) || range_covers(&self.ranges, index, key, mode)
    }
}
