//! What is kept of one session.
ghost use Rattle.std.specs.Prelude.{◌≡◌, [], max, OnOk, OnErr};
ghost use Rattle.lock_manager.specs.Table.{HasGained, AddAtMost, IsUsed, nothing};

use crate::held::Held;
use iv_types::{NoMemory, Want, WantList};
use std::alloc::Global;
use std::marker::Model;
use std::mem;

/// The locks of a session, what it waits for, and how many locks more it may be granted.
#[derive(Drop)]
pub struct SessionPart {
    held: Held,
    waiting: WantList,
    room: u32,
}

impl Model for SessionPart {
    ghost use Rattle.std.specs.Prelude.{◌≤◌};
    ghost use Rattle.lock_manager.specs.Table.{SessionLocks, coded_session_locks};

    ghost Value = { SessionLocks };

    ghost coded = { coded_session_locks };

    ghost view = { λ s. record { locks = s.held.locks; waiting = s.waiting; room = s.room } };

    ghost invariant = { λ s. s.room ≤ s.held.spare };
}

impl SessionPart {
    /// A session that holds nothing, which takes no memory.
    pub fn new(alloc: Global) -> SessionPart
        ensures { result ≡ nothing }
    {
        SessionPart {
            held: Held::new(alloc),
            waiting: WantList::new(alloc),
            room: 0,
        }
    }

    /// Makes room for so many locks more than there are.
    ///
    /// # Errors
    ///
    /// Where there is no memory for them.
    pub fn reserve(&mut self, alloc: Global, more: u32) -> Result<(), NoMemory>
        ensures ok { OnOk result (self.new ≡ record self.old { room = max self.old.room more }) }
        ensures err { OnErr result (self.new ≡ self.old) }
    {
        let room = self.room.max(more);
        self.held.reserve(alloc, room as usize)?;
        self.room = room;
        Ok(())
    }

    /// Adds locks. There is room for those that are new, and it is used. The session waits for nothing then.
    pub fn grant(&mut self, alloc: Global, wants: WantList)
        requires { AddAtMost self.old.room self.old.locks wants }
        ensures locks { HasGained self.old.locks wants self.new.locks }
        ensures waiting { self.new.waiting ≡ [] }
        ensures used { IsUsed self.old.locks wants self.old.room self.new.room }
    {
        let room = self.room;
        let used = self.held.add_all(wants.into_vec());
        self.room = room - used as u32;
        self.waiting = WantList::new(alloc);
    }

    /// The session waits for these wants and for nothing else. What it waited for before is given back.
    pub fn wait(&mut self, wants: WantList) -> WantList
        ensures waits { self.new ≡ record self.old { waiting = wants } }
        ensures before { result ≡ self.old.waiting }
    {
        mem::replace(&mut self.waiting, wants)
    }

    /// Takes all away.
    pub fn release(&mut self, alloc: Global)
        ensures { self.new ≡ nothing }
    {
        self.held.clear();
        self.waiting = WantList::new(alloc);
        self.room = 0;
    }

    /// The locks.
    pub fn held(&self) -> &Held
        ensures { result.now.locks ≡ self.now.locks }
    {
        &self.held
    }

    /// What the session waits for.
    pub fn waiting(&self) -> &[Want]
        ensures { result.now ≡ self.now.waiting }
    {
        self.waiting.as_slice()
    }
}
