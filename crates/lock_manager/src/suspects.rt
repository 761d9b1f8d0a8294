//! Which sessions may hold a lock that is in the way of a want, told without a look into their locks.
//!
//! Each lock is marked by its mode at a digest of its index and key, a true range at a place of its own, and all at one place more. So a
//! want of one key meets the marks of locks whose keys have its digest, and of ranges. A mark may be that of another key, never missing.
ghost use Rattle.std.specs.Prelude.{◌≡◌, ◌⊎◌, ℕ, ◌↔◌, ◌≢◌, ◌<◌, length};
ghost use Rattle.std.specs.List.{Contains};
ghost use Rattle.iv_types.specs.declared.lock.LockMode.{LockMode};
ghost use Rattle.iv_types.specs.declared.lock.Want.{Want};
ghost use Rattle.iv_types.specs.SessionSets.{Has};
ghost use Rattle.iv_meaning.specs.Escrow.{IsSession};
ghost use Rattle.lock_manager.specs.Suspects.{in_mode, no_holders, IsApart, HasAdded, HasRemoved, digest, IsMarked, KeepsMarks, IsMarkedAt, IsUnmarkedBefore, AreSuspects};

use crate::order::is_point;
use iv_types::{LockMode, NOBODY, Sessions, Want};

/// Where the holders of true ranges stand, behind those of the digests 0 to 255.
const RANGES: usize = 256;

/// Where the holders of all locks stand.
const ALL: usize = 257;

/// How many places there are.
pub const SLOTS: usize = 258;

/// The sessions that hold a lock in each mode.
#[derive(Clone, Copy)]
pub struct Holders {
    pub share: Sessions,
    pub exclusive: Sessions,
    pub increment: Sessions,
}

// The sessions of both sets.
fn either(a: Sessions, b: Sessions) -> Sessions
    ensures { (session : ℕ) → Has result session ↔ (Has a session ⊎ Has b session) }
{
    Sessions {
        bits: a.bits | b.bits,
    }
}

// The set without a session, from 1 to 64.
fn without(set: Sessions, session: u32) -> Sessions
    requires { IsSession session }
    ensures { (other : ℕ) → Has result other ↔ (Has set other × (other ≢ session)) }
{
    Sessions {
        bits: set.bits & !(1 << (session - 1)),
    }
}

impl Holders {
    /// No session.
    pub fn none() -> Holders
        ensures { result ≡ no_holders }
    {
        Holders {
            share: NOBODY,
            exclusive: NOBODY,
            increment: NOBODY,
        }
    }

    // These and one session more, from 1 to 64, in a mode.
    fn with(mut self, mode: LockMode, session: u32) -> Holders
        requires { IsSession session }
        ensures { HasAdded self mode session result }
    {
        match mode {
            LockMode::Share => self.share = self.share.with(session),
            LockMode::Exclusive => self.exclusive = self.exclusive.with(session),
            LockMode::Increment => self.increment = self.increment.with(session),
        }
        self
    }

    // These without a session, from 1 to 64.
    fn without(self, session: u32) -> Holders
        requires { IsSession session }
        ensures { HasRemoved self session result }
    {
        Holders {
            share: without(self.share, session),
            exclusive: without(self.exclusive, session),
            increment: without(self.increment, session),
        }
    }

    // The sessions that hold a lock in a mode that may not be held beside this one.
    fn apart_from(self, mode: LockMode) -> Sessions
        ensures { (session : ℕ) → Has result session ↔ IsApart self mode session }
    {
        match mode {
            LockMode::Share => either(self.exclusive, self.increment),
            LockMode::Exclusive => either(self.share, either(self.exclusive, self.increment)),
            LockMode::Increment => either(self.share, self.exclusive),
        }
    }
}

// The digest of a key of an index.
fn digest_of(index: u32, key: &[u8]) -> u8
    ensures { result ≡ digest index key.now }
{
    let mut sum = (index % 256) as u8;
    for byte in key {
        sum = sum.wrapping_add(*byte);
    }
    sum
}

/// The sessions that may hold a lock that conflicts with this want: all that do, and seldom another one.
pub fn suspects(slots: &[Holders], want: &Want) -> Sessions
    requires { length slots.now ≡ SLOTS }
    ensures { AreSuspects slots.now want.now result }
{
    if is_point(&want.interval) {
        let place = digest_of(want.index, want.interval.low.as_slice());
        either(
            slots[place as usize].apart_from(want.mode),
            slots[RANGES].apart_from(want.mode),
        )
    } else {
        slots[ALL].apart_from(want.mode)
    }
}

// Marks a session, from 1 to 64, at a place.
fn mark_at(slots: &mut Vec<Holders>, place: usize, mode: LockMode, session: u32)
    requires session { IsSession session }
    requires size { length slots.old.items ≡ SLOTS }
    requires place { place < SLOTS }
    ensures size { length slots.new.items ≡ SLOTS }
    ensures marked { IsMarkedAt slots.old.items place mode session slots.new.items }
{
    slots[place] = slots[place].with(mode, session);
}

// Marks a lock of a session, from 1 to 64.
fn mark_one(slots: &mut Vec<Holders>, session: u32, lock: &Want)
    requires session { IsSession session }
    requires size { length slots.old.items ≡ SLOTS }
    ensures size { length slots.new.items ≡ SLOTS }
    ensures kept { KeepsMarks slots.old.items slots.new.items }
    ensures marked { IsMarked slots.new.items session lock.now }
{
    let place = if is_point(&lock.interval) {
        digest_of(lock.index, lock.interval.low.as_slice()) as usize
    } else {
        RANGES
    };
    mark_at(slots, place, lock.mode, session);
    mark_at(slots, ALL, lock.mode, session);
}

/// Marks locks of a session, from 1 to 64.
pub fn mark(slots: &mut Vec<Holders>, session: u32, locks: &[Want])
    requires session { IsSession session }
    requires size { length slots.old.items ≡ SLOTS }
    ensures size { length slots.new.items ≡ SLOTS }
    ensures kept { KeepsMarks slots.old.items slots.new.items }
    ensures marked { (lock : Want) → Contains locks.now lock → IsMarked slots.new.items session lock }
{
    for lock in locks {
        mark_one(slots, session, lock);
    }
}

/// Takes all marks of a session, from 1 to 64, away.
pub fn unmark(slots: &mut Vec<Holders>, session: u32)
    requires session { IsSession session }
    requires size { length slots.old.items ≡ SLOTS }
    ensures size { length slots.new.items ≡ SLOTS }
    ensures unmarked { IsUnmarkedBefore slots.old.items SLOTS session slots.new.items }
{
    for place in 0..SLOTS {
        slots[place] = slots[place].without(session);
    }
}
