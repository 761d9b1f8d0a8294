//! The locks of all sessions.
ghost use Rattle.std.specs.Prelude.{◌≡◌, ◌↔◌, length, IsTrue, IfOk, OnOk, OnErr};
ghost use Rattle.std.specs.List.{Contains};
ghost use Rattle.iv_types.specs.declared.limit.TheConstants.{SEATS};
ghost use Rattle.iv_meaning.specs.Escrow.{IsSession};
ghost use Rattle.txn_machine.specs.Locks.{AreInTheWay};
ghost use Rattle.iv_types.specs.SessionSets.{IsSomebody};
ghost use Rattle.lock_manager.specs.Suspects.{AreMarked, IsFound, IsWith};
ghost use Rattle.lock_manager.specs.Table.{Covers, HasSome, IsNew, IsFree, IsReserved, IsGranted, IsRecorded, IsCancelled, IsReleased, AddAtMost, OnGranted, IfBlocked, locks_of, waiting_of, room_of};

use crate::LockAnswer;
use crate::session_part::SessionPart;
use crate::suspects::{Holders, SLOTS, mark, suspects, unmark};
use iv_types::{LockMode, NOBODY, NoMemory, SEATS, Sessions, Want, WantList};
use std::alloc::Global;
use std::marker::Model;

// Whether another session, from 1 to 64, is a suspect that holds a lock in the way of one want.
fn is_found(
    parts: &[SessionPart],
    suspects: Sessions,
    session: u32,
    want: &Want,
    other: u32,
) -> bool
    requires parts { length parts.now ≡ SEATS }
    requires other { IsSession other }
    ensures { IsTrue result ↔ IsFound suspects (locks_of parts.now) session want.now other }
{
    suspects.has(other) && other != session && parts[other as usize].held().meets(want)
}

// These sessions, and those of the suspects that hold a lock in the way of one want.
fn with_those(
    parts: &[SessionPart],
    suspects: Sessions,
    session: u32,
    want: &Want,
    found: Sessions,
) -> Sessions
    requires parts { length parts.now ≡ SEATS }
    ensures { IsWith found (IsFound suspects (locks_of parts.now) session want.now) result }
{
    if !suspects.is_somebody() {
        return found;
    }
    let mut sessions = found;
    for other in 1..SEATS as u32 {
        if is_found(parts, suspects, session, want, other) {
            sessions = sessions.with(other);
        }
    }
    sessions
}

// The sessions that are in the way of these wants.
fn in_the_way(parts: &[SessionPart], slots: &[Holders], session: u32, wants: &[Want]) -> Sessions
    requires parts { length parts.now ≡ SEATS }
    requires marked { AreMarked slots.now parts.now }
    ensures { AreInTheWay (locks_of parts.now) session wants.now result }
{
    let mut sessions = NOBODY;
    for want in wants {
        sessions = with_those(parts, suspects(slots, want), session, want, sessions);
    }
    sessions
}

/// The locks that sessions 1 to 64 hold on intervals of the keys of indexes, what each session waits for, and the room
/// that was made for each.
///
/// A request looks only into the locks of sessions with a mark of such a mode at its key's digest, or on a range. Each session's locks
/// are kept in the order of their indexes and low ends, so that it looks at those of its own indexes that can overlap what it asks for.
#[derive(Drop)]
pub struct LockTable {
    alloc: Global,
    // Session k's part stands at place k.
    parts: Vec<SessionPart>,
    // The sessions that may hold a lock of a digest and a mode. The others are passed over by requests.
    slots: Vec<Holders>,
}

impl Model for LockTable {
    ghost use Rattle.std.specs.Coded.{coded_list};
    ghost use Rattle.lock_manager.specs.Suspects.{IsSound};
    ghost use Rattle.lock_manager.specs.Table.{Table, coded_session_locks};

    ghost Value = { Table };

    ghost coded = { coded_list coded_session_locks };

    ghost view = { λ t. t.parts.items };

    ghost invariant = { IsSound };
}

impl LockTable {
    /// A table in which no session holds anything.
    ///
    /// # Errors
    ///
    /// Where there is no memory for it.
    pub fn new(alloc: Global) -> Result<LockTable, NoMemory>
        ensures { IfOk result (λ table. IsNew table) }
    {
        let slots = vec![in alloc; Holders::none(); SLOTS]?;
        let mut parts = Vec::new(alloc);
        for _ in 0..SEATS {
            parts.push(SessionPart::new(alloc))?;
        }
        Ok(LockTable {
            alloc,
            parts,
            slots,
        })
    }

    /// Makes room, so that the session, 1 to 64, may be granted this many locks more than it holds. Room that it has
    /// already counts.
    ///
    /// # Errors
    ///
    /// Where there is no memory for it. Nothing is changed then. No other call takes memory.
    pub fn reserve(&mut self, session: u32, more: u32) -> Result<(), NoMemory>
        requires { IsSession session }
        ensures ok { OnOk result (IsReserved self.old self.new session more) }
        ensures err { OnErr result (self.new ≡ self.old) }
    {
        let alloc = self.alloc;
        self.parts[session as usize].reserve(alloc, more)
    }

    /// Asks for locks, all or none. The session is 1 to 64, and there is room for those that it does not hold already.
    ///
    /// Where no other session holds a lock that conflicts with one of them they are granted, as by `grant`. Else the
    /// sessions in the way are answered, nothing is granted, and the session waits for these wants and for nothing else.
    pub fn request(&mut self, session: u32, wants: WantList) -> LockAnswer
        requires session { IsSession session }
        requires reserved { AddAtMost (room_of self.old session) (locks_of self.old session) wants }
        ensures free { OnGranted result (IsFree (locks_of self.old) session wants) }
        ensures granted { OnGranted result (IsGranted self.old self.new session wants) }
        ensures in_the_way { IfBlocked result (λ sessions. AreInTheWay (locks_of self.old) session wants sessions) }
        ensures somebody { IfBlocked result (λ sessions. IsSomebody sessions) }
        ensures recorded { IfBlocked result (λ _. IsRecorded self.old self.new session wants) }
    {
        let sessions = self.conflicts(session, &wants);
        if sessions.is_somebody() {
            self.parts[session as usize].wait(wants);
            return LockAnswer::Blocked(sessions);
        }
        self.grant(session, wants);
        LockAnswer::Granted
    }

    /// Makes these wants locks of the session, 1 to 64, which waits for nothing then. Nobody is in the way of them, as
    /// `conflicts` tells, and there is room for those that the session does not hold already; the others use none.
    pub fn grant(&mut self, session: u32, wants: WantList)
        requires session { IsSession session }
        requires free { IsFree (locks_of self.old) session wants }
        requires reserved { AddAtMost (room_of self.old session) (locks_of self.old session) wants }
        ensures { IsGranted self.old self.new session wants }
    {
        let alloc = self.alloc;
        mark(&mut self.slots, session, wants.as_slice());
        self.parts[session as usize].grant(alloc, wants);
    }

    /// The session, 1 to 64, waits for these wants, and for nothing else.
    pub fn wait(&mut self, session: u32, wants: WantList)
        requires { IsSession session }
        ensures { IsRecorded self.old self.new session wants }
    {
        self.parts[session as usize].wait(wants);
    }

    /// The sessions that would block this request, nobody where it would be granted.
    pub fn conflicts(&self, session: u32, wants: &WantList) -> Sessions
        ensures in_the_way { AreInTheWay (locks_of self.now) session wants.now result }
        ensures free { ¬ IsSomebody result → IsFree (locks_of self.now) session wants.now }
    {
        in_the_way(&self.parts, &self.slots, session, wants.as_slice())
    }

    /// The sessions that are now in the way of what the session, 1 to 64, waits for: nobody where it waits for nothing.
    pub fn blocked_by(&self, session: u32) -> Sessions
        requires { IsSession session }
        ensures { AreInTheWay (locks_of self.now) session (waiting_of self.now session) result }
    {
        let waiting = self.parts[session as usize].waiting();
        in_the_way(&self.parts, &self.slots, session, waiting)
    }

    /// Gives back what the session, 1 to 64, waits for. It waits for nothing then.
    pub fn cancel(&mut self, session: u32) -> WantList
        requires { IsSession session }
        ensures cancelled { IsCancelled self.old self.new session }
        ensures wants { result ≡ waiting_of self.old session }
    {
        let none = WantList::new(self.alloc);
        self.parts[session as usize].wait(none)
    }

    /// Takes away all locks of the session, 1 to 64, what it waits for, and its room.
    pub fn release_all(&mut self, session: u32)
        requires { IsSession session }
        ensures { IsReleased self.old self.new session }
    {
        let alloc = self.alloc;
        self.parts[session as usize].release(alloc);
        unmark(&mut self.slots, session);
    }

    /// Whether the session, 1 to 64, holds a lock of exactly this mode on this index whose interval has the key.
    pub fn holds(&self, session: u32, index: u32, key: &[u8], mode: LockMode) -> bool
        requires { IsSession session }
        ensures { IsTrue result ↔ HasSome (Covers index key.now mode) (locks_of self.now session) }
    {
        self.parts[session as usize].held().holds(index, key, mode)
    }

    /// Whether the session, 1 to 64, holds this very lock: a want of it needs no room then.
    pub fn holds_want(&self, session: u32, want: &Want) -> bool
        requires { IsSession session }
        ensures { IsTrue result ↔ Contains (locks_of self.now session) want.now }
    {
        self.parts[session as usize].held().has(want)
    }
}
