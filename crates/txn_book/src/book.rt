//! The book of an engine's transactions: those that are open and those that are committed.
ghost use Rattle.std.specs.Prelude.{IfSome, ◌≡◌, ◌≢◌, ◌+◌, ◌≤◌, ◌<◌, ◌^◌, ℕ, List, [], ◌∷◌, length, reverse, suc, ⊤, Option, Some, None, IfOk, OnOk, OnErr};
ghost use Rattle.std.specs.Option.{option_copied};
ghost use Rattle.iv_types.specs.declared.limit.TheConstants.{MOST_SESSIONS, SEATS};
ghost use Rattle.iv_types.specs.declared.lock.GroupDelta.{GroupDelta as Delta};
ghost use Rattle.iv_types.specs.declared.lock.KeptStep.{KeptStep as Step};
ghost use Rattle.txn_book.specs.declared.open_table.Open.{Open as Transaction};
ghost use Rattle.txn_book.specs.Opens.{open_at};
ghost use Rattle.txn_book.specs.Txns.{HasRoomFor, IsRoomy, txn_of, entry_size, begun, noting, with_ghost, lost, with_put, with_pay, without_step, kept_in};
ghost use Rattle.txn_book.specs.Books.{CanKeep, Changes, Committed, Defined, IsBook, IsLeastOpen, IsOpenAnd, IsSame, OfOpen, Seats, bytes_of, how_many_open, least_snapshot, number_of, open_changes, puts_of, total_bytes};

use crate::kept_steps::{Owing, changes_of, keep, make_room, pay, undo};
use crate::open_table::{Open, OpenTable};
use iv_types::{ChangeList, Kept, MOST_SESSIONS, Mode, NoMemory, PrefixList, SEATS};
use std::alloc::Global;
use std::marker::Model;

/// What a serial transaction counts in the history, besides its changes.
pub const ENTRY_BYTES: u64 = 256;

/// A committed transaction, with its changes in order. A CREATE statement's has one change: table 0, as key the four bytes
/// of the object number, no row before, and after it a row of one Word, the statement's text.
#[derive(Drop)]
pub struct Entry {
    pub number: u64,
    pub session: u32,
    pub changes: ChangeList,
}

/// The transactions of an opening. Commit numbers go on from the one that it was opened with.
#[derive(Drop)]
pub struct Book {
    alloc: Global,
    opened: u64,
    opens: OpenTable,
    history: Vec<Entry>,
    // What the entries count.
    entry_bytes: u64,
}

// What a transaction, if there is one, counts in the history.
fn bytes_of(txn: Option<&Open>) -> u64
    ensures { result ≡ bytes_of (option_copied txn.entry) }
{
    match txn {
        Some(txn) => txn.history_bytes,
        None => 0,
    }
}

// How many changes a transaction, if there is one, keeps.
fn puts_of(txn: Option<&Open>) -> usize
    requires { IfSome (option_copied txn) IsRoomy }
    ensures { result ≡ puts_of (option_copied txn.entry) }
{
    match txn {
        Some(txn) => txn.puts,
        None => 0,
    }
}

// The lesser of this number and that of a transaction, if there is one and it is a snapshot.
fn lesser(txn: Option<&Open>, least: u64) -> u64
    ensures { (opens : List (Option Transaction)) (n : ℕ) → open_at opens (suc n) ≡ option_copied txn.entry → least_snapshot opens (suc n) least ≡ least_snapshot opens n result }
{
    match txn {
        Some(txn) if txn.mode == Mode::Snapshot && txn.number <= least => txn.number,
        _ => least,
    }
}

// A transaction that has done nothing.
fn opened(alloc: Global, mode: Mode, number: u64, id: u64) -> Open
    ensures txn { txn_of result ≡ begun mode number id }
    ensures roomy { IsRoomy result }
{
    let history_bytes = match mode {
        Mode::Serial => ENTRY_BYTES,
        Mode::Snapshot => 0,
    };
    Open {
        mode,
        number,
        id,
        kept: Vec::new(alloc),
        owed: Vec::new(alloc),
        back: 0,
        is_ghosted: false,
        is_lost: false,
        has_written: false,
        puts: 0,
        entry: Vec::new(alloc),
        txn_bytes: 0,
        history_bytes,
    }
}

impl Model for Book {
    ghost use Rattle.std.specs.Prelude.{◌-◌, length, vec_capacity};
    ghost use Rattle.txn_book.specs.Books.{Books, coded_books, IsBook};

    ghost Value = { Books };

    ghost coded = { coded_books };

    ghost view = { λ b. record { opened = b.opened; opens = b.opens.opens; history = b.history.items; entry_bytes = b.entry_bytes; room = vec_capacity b.history - length b.history.items; seats = b.opens.room } };

    ghost invariant = { λ b. IsBook (record { opened = b.opened; opens = b.opens.opens; history = b.history.items; entry_bytes = b.entry_bytes; room = vec_capacity b.history - length b.history.items; seats = b.opens.room }) };
}

impl Book {
    /// No transactions, after this commit number.
    ///
    /// # Errors
    ///
    /// Where there is no memory for it.
    pub fn new(alloc: Global, number: u64) -> Result<Book, NoMemory>
        requires { number < 2 ^ 63 }
        ensures number { IfOk result (λ b. b.opened ≡ number) }
        ensures history { IfOk result (λ b. (b.history ≡ []) × (b.entry_bytes ≡ 0)) }
        ensures opens { IfOk result (λ b. (session : ℕ) → open_at b.opens session ≡ None) }
    {
        let opens = OpenTable::new(alloc)?;
        Ok(Book {
            alloc,
            opened: number,
            opens,
            history: Vec::new(alloc),
            entry_bytes: 0,
        })
    }

    /// What always holds of a book. It does nothing.
    pub fn book_law(&self)
        ensures { IsBook self.now }
    {
        let _opened = self.opened;
    }

    /// The greatest commit number.
    pub fn number(&self) -> u64
        ensures { result ≡ number_of self.now }
    {
        self.opened + self.history.len() as u64
    }

    /// The committed transactions, the first first.
    pub fn history(&self) -> &[Entry]
        ensures { result.now ≡ self.now.history }
    {
        &self.history
    }

    /// The open transaction of a session, if there is one.
    pub fn get(&self, session: u32) -> Option<&Open>
        ensures { option_copied result ≡ open_at self.now.opens session }
    {
        self.opens.get(session)
    }

    /// What the history and the open transactions count.
    pub fn history_bytes(&self) -> u64
        ensures { result ≡ total_bytes self.now }
    {
        let mut sum = self.entry_bytes;
        for session in 0..SEATS as u32 {
            sum += bytes_of(self.opens.get(session));
        }
        sum
    }

    /// How many changes the open transactions keep.
    pub fn changes(&self) -> usize
        requires { open_changes self.now.opens < 2 ^ 64 }
        ensures { result ≡ open_changes self.now.opens }
    {
        let mut sum = 0;
        for session in 0..SEATS as u32 {
            sum += puts_of(self.opens.get(session));
        }
        sum
    }

    /// The least session with an open transaction, if there is one.
    pub fn least_open(&self) -> Option<u32>
        ensures { IsLeastOpen self.now.opens result }
    {
        for session in 1..SEATS as u32 {
            if self.opens.get(session).is_some() {
                return Some(session);
            }
        }
        None
    }

    /// Opens a transaction of a session that has none, with this number in the log.
    ///
    /// # Errors
    ///
    /// Where there is no memory for it.
    pub fn begin(&mut self, session: u32, mode: Mode, id: u64) -> Result<(), NoMemory>
        requires session { session ≤ MOST_SESSIONS }
        requires none { open_at self.old.opens session ≡ None }
        requires fits { total_bytes self.old + entry_size mode < 2 ^ 64 }
        ensures ok { OnOk result (Changes self.old self.new session (begun mode (number_of self.old) id)) }
        ensures err { OnErr result (IsSame self.old self.new) }
    {
        self.reserve_entry()?;
        self.opens.reserve()?;
        let number = self.number();
        self.put(session, opened(self.alloc, mode, number, id));
        Ok(())
    }

    // Takes a session's transaction out.
    fn take(&mut self, session: u32) -> Open
        requires { IsOpenAnd self.old session (λ o. ⊤) }
        ensures taken { open_at self.old.opens session ≡ Some result }
        ensures left { Seats self.old self.new session None }
        ensures roomy { IsRoomy result }
        ensures place { session < SEATS }
        ensures none { open_at self.new.opens session ≡ None }
        ensures bytes { total_bytes self.new + result.history_bytes ≡ total_bytes self.old }
        ensures fits { total_bytes self.old < 2 ^ 64 }
        ensures room { how_many_open self.new.opens + 1 ≤ self.new.room }
        ensures seats { 1 ≤ self.new.seats }
    {
        self.opens.take(session)
    }

    // Puts a session's transaction in.
    fn put(&mut self, session: u32, txn: Open)
        requires place { session < SEATS }
        requires none { open_at self.old.opens session ≡ None }
        requires roomy { IsRoomy txn }
        requires fits { total_bytes self.old + txn.history_bytes < 2 ^ 64 }
        requires room { how_many_open self.old.opens + 1 ≤ self.old.room }
        requires seats { 1 ≤ self.old.seats }
        ensures { Seats self.old self.new session (Some txn) }
    {
        self.opens.put(session, txn);
    }

    /// The least number of an open snapshot, or the greatest commit number where there is none.
    pub fn least_snapshot(&self) -> u64
        ensures { result ≡ least_snapshot self.now.opens MOST_SESSIONS (number_of self.now) }
    {
        let mut least = self.number();
        for done in 0..MOST_SESSIONS {
            least = lesser(self.opens.get(MOST_SESSIONS - done), least);
        }
        least
    }

    /// Makes room for one more entry, beside those of the open transactions.
    ///
    /// # Errors
    ///
    /// Where there is no memory for it.
    pub fn reserve_entry(&mut self) -> Result<(), NoMemory>
        ensures same { IsSame self.old self.new }
        ensures room { OnOk result (how_many_open self.new.opens + 1 ≤ self.new.room) }
    {
        Ok(self.history.reserve(SEATS + 1)?)
    }

    /// Makes room for one more change of a session's transaction that owes so many deltas, for their pays, for taking all of
    /// it back and for its commit.
    ///
    /// # Errors
    ///
    /// Where there is no memory for it.
    pub fn reserve(&mut self, session: u32, deltas: usize) -> Result<(), NoMemory>
        requires txn { IsOpenAnd self.old session (λ o. ⊤) }
        requires few { deltas < 2 ^ 32 }
        ensures same { OfOpen self.old session (λ o. Changes self.old self.new session (txn_of o)) }
        ensures room { OnOk result (OfOpen self.new session (HasRoomFor deltas)) }
    {
        let mut txn = self.take(session);
        let made = make_room(&mut txn, deltas);
        self.put(session, txn);
        made
    }

    /// A Fetch that a session's transaction did counts so many bytes.
    pub fn note(&mut self, session: u32, bytes: u64)
        requires { IsOpenAnd self.old session (λ o. o.txn_bytes + bytes < 2 ^ 64) }
        ensures { OfOpen self.old session (λ o. Changes self.old self.new session (noting (txn_of o) bytes)) }
    {
        let mut txn = self.take(session);
        txn.txn_bytes += bytes;
        self.put(session, txn);
    }

    /// The next delta that a session owes has had its Ghost.
    pub fn ghosted(&mut self, session: u32)
        requires { IsOpenAnd self.old session (λ o. ⊤) }
        ensures { OfOpen self.old session (λ o. Changes self.old self.new session (with_ghost (txn_of o))) }
    {
        let mut txn = self.take(session);
        txn.is_ghosted = true;
        self.put(session, txn);
    }

    /// A deadlock met a session's transaction.
    pub fn lose(&mut self, session: u32)
        requires { IsOpenAnd self.old session (λ o. ⊤) }
        ensures { OfOpen self.old session (λ o. Changes self.old self.new session (lost (txn_of o))) }
    {
        let mut txn = self.take(session);
        txn.is_lost = true;
        self.put(session, txn);
    }

    /// Keeps a change of a session's transaction that owes nothing, into room that was made.
    pub fn keep(&mut self, session: u32, kept: Kept, owing: Owing)
        requires { IsOpenAnd self.old session (CanKeep self.old (length owing.owed.items) owing.txn_bytes owing.history_bytes) }
        ensures { OfOpen self.old session (λ o. Changes self.old self.new session (with_put (txn_of o) kept owing.number owing.owed.items owing.txn_bytes owing.history_bytes)) }
    {
        let mut txn = self.take(session);
        keep(&mut txn, kept, owing);
        self.put(session, txn);
    }

    /// The next delta that a session owes, and that is not coming back, is paid. Before it the session had these prefixes on
    /// the row.
    pub fn paid(&mut self, session: u32, before: PrefixList, number: u64)
        requires { IsOpenAnd self.old session (λ o. (o.owed.items ≢ []) × (o.back ≡ 0)) }
        ensures { OfOpen self.old session (λ o. (d : Delta) (ds : List Delta) → reverse o.owed.items ≡ d ∷ ds → Changes self.old self.new session (with_pay (txn_of o) d ds before number)) }
    {
        let mut txn = self.take(session);
        pay(&mut txn, before, number);
        self.put(session, txn);
    }

    /// Takes the latest kept step of a session back. Of a change, what was kept of it is given; of a pay, the delta is owed
    /// again and is coming back.
    pub fn undo(&mut self, session: u32) -> Option<Kept>
        requires { IsOpenAnd self.old session (λ o. o.kept.items ≢ []) }
        ensures { OfOpen self.old session (λ o. (k : Step) (ks : List Step) → reverse o.kept.items ≡ k ∷ ks → (result ≡ kept_in k) × Changes self.old self.new session (without_step (txn_of o) k ks)) }
    {
        let mut txn = self.take(session);
        let kept = undo(&mut txn);
        self.put(session, txn);
        kept
    }

    /// Ends a session's transaction without an entry.
    pub fn end(&mut self, session: u32)
        requires { IsOpenAnd self.old session (λ o. ⊤) }
        ensures { Seats self.old self.new session None }
    {
        self.take(session).let_go();
    }

    /// Makes an entry of a session's transaction, which ends, and gives its number.
    pub fn commit(&mut self, session: u32) -> u64
        requires { IsOpenAnd self.old session (λ o. ⊤) }
        ensures number { result ≡ number_of self.old + 1 }
        ensures entry { OfOpen self.old session (λ o. Committed self.old self.new session (txn_of o)) }
    {
        let txn = self.take(session);
        let bytes = txn.history_bytes;
        let changes = ChangeList::from_vec(changes_of(txn));
        self.enter(session, changes, bytes)
    }

    /// Makes an entry of a CREATE statement's change that counts so many bytes, into room that was made, and gives its number.
    pub fn define(&mut self, session: u32, changes: ChangeList, bytes: u64) -> u64
        requires room { how_many_open self.old.opens + 1 ≤ self.old.room }
        requires fits { total_bytes self.old + bytes < 2 ^ 64 }
        ensures number { result ≡ number_of self.old + 1 }
        ensures entry { Defined self.old self.new session changes bytes }
    {
        self.enter(session, changes, bytes)
    }

    // Appends an entry.
    fn enter(&mut self, session: u32, changes: ChangeList, bytes: u64) -> u64
        requires room { how_many_open self.old.opens + 1 ≤ self.old.room }
        requires fits { total_bytes self.old + bytes < 2 ^ 64 }
        ensures number { result ≡ number_of self.old + 1 }
        ensures entry { Defined self.old self.new session changes bytes }
    {
        let number = self.number() + 1;
        self.history.push_reserved(Entry {
            number,
            session,
            changes,
        });
        self.entry_bytes += bytes;
        number
    }
}
