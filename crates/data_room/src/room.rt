//! What is kept of the data.
ghost use Rattle.std.specs.Prelude.{◌≡◌, ◌≢◌, ◌+◌, ◌-◌, ◌<◌, ◌≤◌, ◌^◌, ℕ, IfOk, IfSome, IfNone};
ghost use Rattle.iv_types.specs.declared.limit.TheConstants.{SEATS};
ghost use Rattle.iv_types.specs.Maps.{IsWithin};
ghost use Rattle.txn_machine.specs.Log.{Above};
ghost use Rattle.data_room.specs.Reserved.{Where, share_at};

use iv_types::{NoMemory, SEATS};
use std::alloc::Global;
use std::marker::Model;

/// How many bytes of the data are kept for each session's transaction. Contracts see session k's at place k.
#[derive(Drop)]
pub struct Shares {
    shares: Vec<u64>,
}

impl Model for Shares {
    ghost use Rattle.std.specs.Prelude.{◌≡◌, ℕ, List, length};
    ghost use Rattle.iv_types.specs.declared.limit.TheConstants.{SEATS};

    ghost Value = { List ℕ };

    ghost view = { λ s. s.shares.items };

    ghost invariant = { λ s. length s.shares.items ≡ SEATS };
}

impl Shares {
    /// Nothing is kept.
    ///
    /// # Errors
    ///
    /// Where there is no memory for it.
    pub fn new(alloc: Global) -> Result<Shares, NoMemory>
        ensures { IfOk result (λ shares. (session : ℕ) → share_at shares session ≡ 0) }
    {
        let mut shares = Vec::with_capacity(alloc, SEATS)?;
        for _ in 0..SEATS {
            shares.push(0u64)?;
        }
        Ok(Shares { shares })
    }

    /// What is kept for a session.
    pub fn get(&self, session: u32) -> u64
        requires { session < SEATS }
        ensures { result ≡ share_at self.now session }
    {
        self.shares[session as usize]
    }

    /// Keeps so much for a session.
    pub fn set(&mut self, session: u32, share: u64)
        requires { session < SEATS }
        ensures own { share_at self.new session ≡ share }
        ensures others { (other : ℕ) → other ≢ session → share_at self.new other ≡ share_at self.old other }
    {
        self.shares[session as usize] = share;
    }
}

/// What is kept of the data, beside what its entries count.
#[derive(Drop)]
pub struct DataRoom {
    /// The most bytes that the data may count with what is kept, where there is such a limit.
    pub limit: Option<u32>,
    /// All that is kept for the sessions.
    pub total: u64,
    /// What is kept for each session's transaction.
    pub shares: Shares,
}

impl DataRoom {
    /// The room of data of which nothing is kept.
    ///
    /// # Errors
    ///
    /// Where there is no memory for it.
    pub fn new(alloc: Global, limit: Option<u32>) -> Result<DataRoom, NoMemory>
        ensures limit { IfOk result (λ room. room.limit ≡ limit) }
        ensures total { IfOk result (λ room. room.total ≡ 0) }
        ensures shares { IfOk result (λ room. (session : ℕ) → share_at room.shares session ≡ 0) }
    {
        Ok(DataRoom {
            limit,
            total: 0,
            shares: Shares::new(alloc)?,
        })
    }

    /// What the data use, where its entries count so many bytes, if so many more would pass the limit.
    pub fn full(&self, entries: u64, need: u64) -> Option<u64>
        requires { IsWithin self.now.limit (entries + self.now.total) }
        ensures few { Where self.now.limit (entries + self.now.total < 2 ^ 32) }
        ensures fits { IfNone result (IsWithin self.now.limit (entries + self.now.total + need)) }
        ensures small { IfNone result (Where self.now.limit (entries + self.now.total + need < 2 ^ 32)) }
        ensures used { IfSome result (λ used. used ≡ entries + self.now.total) }
        ensures passes { IfSome result (λ used. Above self.now.limit (used + need)) }
    {
        let most = self.limit?;
        let used = entries.saturating_add(self.total);
        if used.saturating_add(need) <= u64::from(most) {
            return None;
        }
        Some(used)
    }

    /// Keeps so many bytes more for a session.
    pub fn set_aside(&mut self, session: u32, bytes: u64)
        requires { session < SEATS }
        ensures own { share_at self.old.shares session ≤ self.old.total → self.old.total + bytes < 2 ^ 64 → share_at self.new.shares session ≡ share_at self.old.shares session + bytes }
        ensures others { (other : ℕ) → other ≢ session → share_at self.new.shares other ≡ share_at self.old.shares other }
        ensures total { self.old.total + bytes < 2 ^ 64 → self.new.total ≡ self.old.total + bytes }
        ensures rest { self.new ≡ record self.old { total = self.new.total; shares = self.new.shares } }
    {
        let share = self.shares.get(session);
        self.total = self.total.saturating_add(bytes);
        self.shares.set(session, share.saturating_add(bytes));
    }

    /// Gives back so many bytes that are kept for a session, or all of them where they are fewer.
    pub fn give_back(&mut self, session: u32, bytes: u64)
        requires { session < SEATS }
        ensures own { share_at self.new.shares session ≡ share_at self.old.shares session - bytes }
        ensures others { (other : ℕ) → other ≢ session → share_at self.new.shares other ≡ share_at self.old.shares other }
        ensures total { self.new.total ≡ self.old.total - (share_at self.old.shares session - share_at self.new.shares session) }
        ensures few { share_at self.old.shares session < 2 ^ 64 }
        ensures rest { self.new ≡ record self.old { total = self.new.total; shares = self.new.shares } }
    {
        let share = self.shares.get(session);
        let left = share.saturating_sub(bytes);
        self.total = self.total.saturating_sub(share - left);
        self.shares.set(session, left);
    }

    /// Gives back all that is kept for a session.
    pub fn settle(&mut self, session: u32)
        requires { session < SEATS }
        ensures own { share_at self.new.shares session ≡ 0 }
        ensures others { (other : ℕ) → other ≢ session → share_at self.new.shares other ≡ share_at self.old.shares other }
        ensures total { self.new.total ≡ self.old.total - share_at self.old.shares session }
        ensures rest { self.new ≡ record self.old { total = self.new.total; shares = self.new.shares } }
    {
        let share = self.shares.get(session);
        self.total = self.total.saturating_sub(share);
        self.shares.set(session, 0);
    }
}
