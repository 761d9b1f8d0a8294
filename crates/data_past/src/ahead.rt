//! Versions that are made ahead, as changes are put.
ghost use Rattle.std.specs.Prelude.{◌≡◌, ◌+◌, ◌≤◌, ◌<◌, ◌^◌, ◌-◌, ◌++◌, ◌∷◌, ℕ, [], length, take, vec_capacity, IfOk, OnOk};
ghost use Rattle.iv_types.specs.declared.limit.TheConstants.{SEATS};
ghost use Rattle.data_past.specs.Ahead.{rows_at, deltas_at, all_rows, all_deltas, HasRoomFor, CanAddAt, Becomes};

use crate::versions::Versions;
use iv_types::{GroupDelta, NoMemory, SEATS};
use std::alloc::Global;
use std::marker::Model;
use std::mem;
use version_chain::Version;

/// The same deltas again.
///
/// # Errors
///
/// Where there is no memory for them.
pub fn copied_deltas(alloc: Global, deltas: &[GroupDelta]) -> Result<Vec<GroupDelta>, NoMemory>
    ensures { IfOk result (λ copies. copies.items ≡ deltas.now) }
{
    let mut copies = Vec::new(alloc);
    for delta in deltas {
        copies.push(delta.copied(alloc)?)?;
    }
    Ok(copies)
}

// Adds deltas behind others, into room that was made.
fn append(deltas: &mut Vec<GroupDelta>, mut more: Vec<GroupDelta>)
    requires { length deltas.old.items + length more.items ≤ vec_capacity deltas.old }
    ensures { deltas.new.items ≡ deltas.old.items ++ more.items }
{
    more.reverse();
    while let Some(delta) = more.pop() {
        deltas.push_reserved(delta);
    }
}

impl Versions {
    /// Those of a transaction that has changed nothing.
    pub fn new(alloc: Global) -> Versions
        ensures rows { result.rows.items ≡ [] }
        ensures deltas { result.deltas.items ≡ [] }
    {
        Versions {
            rows: Vec::new(alloc),
            deltas: Vec::new(alloc),
        }
    }

    /// Makes room for the version of one more change, and for so many deltas more.
    ///
    /// # Errors
    ///
    /// Where there is no memory for it. Nothing is changed then but room.
    pub fn reserve(&mut self, deltas: usize) -> Result<(), NoMemory>
        ensures rows { self.new.rows.items ≡ self.old.rows.items }
        ensures deltas { self.new.deltas.items ≡ self.old.deltas.items }
        ensures room { OnOk result (HasRoomFor deltas self.new) }
    {
        self.rows.reserve(1)?;
        self.deltas.reserve(deltas)?;
        Ok(())
    }

    /// Adds the version of a change, and the deltas that it owes, which are paid before its transaction commits. Takes no memory.
    pub fn add(&mut self, version: Version, owed: Vec<GroupDelta>)
        requires { HasRoomFor (length owed.items) self.old }
        ensures rows { self.new.rows.items ≡ self.old.rows.items ++ version ∷ [] }
        ensures deltas { self.new.deltas.items ≡ self.old.deltas.items ++ owed.items }
    {
        self.rows.push_reserved(version);
        append(&mut self.deltas, owed);
    }

    /// Takes the version of the last change away, with the deltas that it owed. Takes no memory.
    pub fn remove_last(&mut self, owed: usize)
        requires rows { 1 ≤ length self.old.rows.items }
        requires deltas { owed ≤ length self.old.deltas.items }
        ensures rows { self.new.rows.items ≡ take (length self.old.rows.items - 1) self.old.rows.items }
        ensures deltas { self.new.deltas.items ≡ take (length self.old.deltas.items - owed) self.old.deltas.items }
    {
        let rows = self.rows.len() - 1;
        let deltas = self.deltas.len() - owed;
        self.rows.truncate(rows);
        self.deltas.truncate(deltas);
    }
}

/// The versions of each session's transaction, made ahead. Contracts see session k's at place k.
#[derive(Drop)]
pub struct VersionsAhead {
    alloc: Global,
    sessions: Vec<Versions>,
}

impl Model for VersionsAhead {
    ghost use Rattle.std.specs.Prelude.{◌≡◌, List, length};
    ghost use Rattle.iv_types.specs.declared.limit.TheConstants.{SEATS};
    ghost use Rattle.data_past.specs.declared.versions.Versions.{Versions};

    ghost Value = { List Versions };

    ghost view = { λ a. a.sessions.items };

    ghost invariant = { λ a. length a.sessions.items ≡ SEATS };
}

impl VersionsAhead {
    /// None of any session.
    ///
    /// # Errors
    ///
    /// Where there is no memory for the sessions' places.
    pub fn new(alloc: Global) -> Result<VersionsAhead, NoMemory>
        ensures rows { IfOk result (λ all. (session : ℕ) → rows_at all session ≡ []) }
        ensures deltas { IfOk result (λ all. (session : ℕ) → deltas_at all session ≡ []) }
    {
        let mut sessions = Vec::with_capacity(alloc, SEATS)?;
        for _ in 0..SEATS {
            sessions.push(Versions::new(alloc))?;
        }
        Ok(VersionsAhead { alloc, sessions })
    }

    /// How many versions of rows there are, and how many deltas.
    pub fn count(&self) -> (usize, usize)
        requires rows { (session : ℕ) → length (rows_at self.now session) < 2 ^ 20 }
        requires deltas { (session : ℕ) → length (deltas_at self.now session) < 2 ^ 20 }
        ensures all { (result.0 ≡ all_rows self.now) × (result.1 ≡ all_deltas self.now) }
        ensures few { (result.0 < 2 ^ 27) × (result.1 < 2 ^ 27) }
    {
        let mut rows = 0;
        let mut deltas = 0;
        for versions in &self.sessions {
            rows += versions.rows.len();
            deltas += versions.deltas.len();
        }
        (rows, deltas)
    }

    /// Makes room for the version of one more change of a session, and for so many deltas more.
    ///
    /// # Errors
    ///
    /// Where there is no memory for it. Nothing is changed then but room.
    pub fn reserve(&mut self, session: u32, deltas: usize) -> Result<(), NoMemory>
        requires { session < SEATS }
        ensures same { Becomes self.old self.new session (rows_at self.old session) (deltas_at self.old session) }
        ensures room { OnOk result (CanAddAt self.new session deltas) }
    {
        self.sessions[session as usize].reserve(deltas)
    }

    /// Adds the version of a session's change, and the deltas that it owes. Takes no memory.
    pub fn add(&mut self, session: u32, version: Version, owed: Vec<GroupDelta>)
        requires { CanAddAt self.old session (length owed.items) }
        ensures { Becomes self.old self.new session (rows_at self.old session ++ version ∷ []) (deltas_at self.old session ++ owed.items) }
    {
        self.sessions[session as usize].add(version, owed);
    }

    /// Takes the version of a session's last change away, with the deltas that it owed. Takes no memory.
    pub fn remove_last(&mut self, session: u32, owed: usize)
        requires rows { 1 ≤ length (rows_at self.old session) }
        requires deltas { owed ≤ length (deltas_at self.old session) }
        ensures { Becomes self.old self.new session (take (length (rows_at self.old session) - 1) (rows_at self.old session)) (take (length (deltas_at self.old session) - owed) (deltas_at self.old session)) }
    {
        self.sessions[session as usize].remove_last(owed);
    }

    /// Lets all of a session's go.
    pub fn clear(&mut self, session: u32)
        requires { session < SEATS }
        ensures { Becomes self.old self.new session [] [] }
    {
        self.sessions[session as usize] = Versions::new(self.alloc);
    }

    /// Takes all of a session's out.
    pub fn take(&mut self, session: u32) -> Versions
        requires { session < SEATS }
        ensures rows { result.rows.items ≡ rows_at self.old session }
        ensures deltas { result.deltas.items ≡ deltas_at self.old session }
        ensures left { Becomes self.old self.new session [] [] }
    {
        let none = Versions::new(self.alloc);
        mem::replace(&mut self.sessions[session as usize], none)
    }
}
