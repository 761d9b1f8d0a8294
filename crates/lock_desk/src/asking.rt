//! What becomes of a request for locks.
ghost use Rattle.std.specs.Prelude.{◌≡◌, ℕ};
ghost use Rattle.iv_meaning.specs.Escrow.{IsSession};
ghost use Rattle.iv_meaning.specs.Waits.{recorded};
ghost use Rattle.txn_machine.specs.Locks.{Locks, AreInTheWay};
ghost use Rattle.lock_manager.specs.Table.{locks_of, waiting_of};
ghost use Rattle.lock_desk.specs.Asking.{Agrees, IsAsked};

use iv_types::{Cycle, MOST_SESSIONS, NOBODY, Sessions, WantList};
use lock_manager::LockTable;
use wait_graph::would_close;

/// What becomes of a request.
#[derive(Clone, Copy)]
pub enum Asked {
    /// Nobody is in the way.
    Free,
    /// It has to wait for these sessions.
    Blocked(Sessions),
    /// Its wait would close this cycle.
    Deadlock(Cycle),
}

// Whom each session waits for.
fn recorded_waits(locks: &LockTable) -> [Sessions; MOST_SESSIONS as usize]
    ensures { (k : ℕ) → IsSession k → AreInTheWay (locks_of locks.now) k (waiting_of locks.now k) (recorded result k) }
{
    let mut waits = [NOBODY; MOST_SESSIONS as usize];
    for at in 0..MOST_SESSIONS {
        waits[at as usize] = locks.blocked_by(at + 1);
    }
    waits
}

/// What becomes of a request of a session from 1 to 64. It changes nothing. Whom the sessions wait for is looked up only
/// where somebody is in the way.
pub fn ask(locks: &LockTable, session: u32, wants: &WantList) -> Asked
    requires { IsSession session }
    ensures { (held waiting : Locks) → Agrees locks.now held waiting → IsAsked result held waiting session wants.now }
{
    let sessions = locks.conflicts(session, wants);
    if !sessions.is_somebody() {
        return Asked::Free;
    }
    let waits = recorded_waits(locks);
    match would_close(&waits, session, sessions) {
        Some(cycle) => Asked::Deadlock(cycle),
        None => Asked::Blocked(sessions),
    }
}
