//! An open transaction, and the open transactions of all sessions.
ghost use Rattle.std.specs.Prelude.{◌≡◌, ◌+◌, ◌≤◌, ◌<◌, ℕ, [], length, slice_set, Some, None, IsSome, IfOk, OnOk};
ghost use Rattle.std.specs.Option.{option_copied};
ghost use Rattle.iv_types.specs.declared.limit.TheConstants.{SEATS};
ghost use Rattle.txn_book.specs.Opens.{Seats, open_at};

use iv_types::{Change, GroupDelta, KeptStep, Mode, NoMemory, SEATS};
use slab::Slab;
use std::alloc::Global;
use std::marker::Model;
use std::mem::drop;

/// An open transaction.
#[derive(Drop)]
pub struct Open {
    pub mode: Mode,
    /// The greatest commit number as it began.
    pub number: u64,
    /// Its number in the log, or 0 where it has none.
    pub id: u64,
    /// The steps that can be taken back, in order.
    pub kept: Vec<KeptStep>,
    /// The deltas that the latest change still owes, the next one to be paid last.
    pub owed: Vec<GroupDelta>,
    /// How many of the next ones to be paid are coming back by undo.
    pub back: usize,
    /// Whether the next one to be paid has had its Ghost.
    pub is_ghosted: bool,
    /// Whether a deadlock met it, so that it can only be taken back.
    pub is_lost: bool,
    /// Whether it has appended a record to the log.
    pub has_written: bool,
    /// How many of the kept steps are changes of rows.
    pub puts: usize,
    /// No change, with room for those of its entry.
    pub entry: Vec<Change>,
    /// The bytes that it counts for the limit of a transaction.
    pub txn_bytes: u64,
    /// The bytes that it counts for the limit of the history.
    pub history_bytes: u64,
}

impl Open {
    /// Lets a transaction go. Its drop is proved here, so that no crate above proves it again.
    pub fn let_go(self) {
        drop(self);
    }
}

/// The open transactions of the sessions.
#[derive(Drop)]
pub struct OpenTable {
    opens: Slab<Open>,
    // The key of session k's transaction at place k.
    seats: Vec<Option<usize>>,
}

impl Model for OpenTable {
    ghost use Rattle.std.specs.Prelude.{◌≡◌, ◌-◌, map, length};
    ghost use Rattle.slab.specs.Slab.{slab_len};
    ghost use Rattle.iv_types.specs.declared.limit.TheConstants.{SEATS};
    ghost use Rattle.txn_book.specs.Opens.{Seats, coded_seats, at_key, AreSeated};

    ghost Value = { Seats };

    ghost coded = { coded_seats };

    ghost view = { λ t. record { opens = map (at_key t.opens) t.seats.items; room = t.opens.capacity - slab_len t.opens } };

    ghost invariant = { λ t. AreSeated t.opens t.seats.items × (length t.seats.items ≡ SEATS) };
}

impl OpenTable {
    /// No open transactions.
    ///
    /// # Errors
    ///
    /// Where there is no memory for their places.
    pub fn new(alloc: Global) -> Result<OpenTable, NoMemory>
        ensures none { IfOk result (λ t. (session : ℕ) → open_at t.opens session ≡ None) }
        ensures places { IfOk result (λ t. length t.opens ≡ SEATS) }
    {
        let mut seats = Vec::with_capacity(alloc, SEATS)?;
        for _ in 0..SEATS {
            seats.push(None)?;
        }
        Ok(OpenTable {
            opens: Slab::new(alloc),
            seats,
        })
    }

    /// Makes room for one more.
    ///
    /// # Errors
    ///
    /// Where there is no memory for it.
    pub fn reserve(&mut self) -> Result<(), NoMemory>
        ensures room { OnOk result (1 ≤ self.new.room) }
        ensures opens { self.new.opens ≡ self.old.opens }
    {
        Ok(self.opens.reserve(1)?)
    }

    /// The open transaction of a session, if there is one.
    pub fn get(&self, session: u32) -> Option<&Open>
        ensures { option_copied result ≡ open_at self.now.opens session }
    {
        match self.seats.get(session as usize) {
            Some(Some(key)) => self.opens.get(*key),
            _ => None,
        }
    }

    /// Takes the open transaction of a session out.
    pub fn take(&mut self, session: u32) -> Open
        requires { IsSome (open_at self.old.opens session) }
        ensures taken { open_at self.old.opens session ≡ Some result }
        ensures left { self.new.opens ≡ slice_set self.old.opens session None }
        ensures room { 1 ≤ self.new.room }
    {
        let Some(key) = self.seats[session as usize] else {
            unreachable!()
        };
        self.seats[session as usize] = None;
        self.opens.remove(key)
    }

    /// Puts the open transaction of a session in, into room that was made.
    pub fn put(&mut self, session: u32, transaction: Open)
        requires place { session < length self.old.opens }
        requires absent { open_at self.old.opens session ≡ None }
        requires room { 1 ≤ self.old.room }
        ensures { self.new.opens ≡ slice_set self.old.opens session (Some transaction) }
    {
        let key = self.opens.insert_reserved(transaction);
        self.seats[session as usize] = Some(key);
    }
}
