//! What is used and reserved of the log.
ghost use Rattle.std.specs.Prelude.{◌≡◌, ◌+◌, ◌-◌, ◌≤◌, ◌^◌, [], ℕ, Bool, List, length, min, cond, false, Option, None, Some, IfSome, IfNone};
ghost use Rattle.iv_types.specs.declared.lock.GroupDelta.{GroupDelta as Delta};
ghost use Rattle.iv_types.specs.declared.refusal.EngineRefusal.TheVariants.{LogFull};
ghost use Rattle.iv_types.specs.declared.statement.Mode.TheVariants.{Serial};
ghost use Rattle.iv_types.specs.Syntax.{StatementTree};
ghost use Rattle.table_laws.specs.Place.{Place};
ghost use Rattle.iv_meaning.specs.Database.{Database, Row};
ghost use Rattle.iv_meaning.specs.Escrow.{IsSession};
ghost use Rattle.iv_meaning.specs.Schema.{Object};
ghost use Rattle.txn_machine.specs.Acts as act;
ghost use Rattle.txn_machine.specs.Acts.{Act};
ghost use Rattle.txn_machine.specs.Counts.{told_need};
ghost use Rattle.txn_machine.specs.Deltas.{RowChange, place_of, columns_of};
ghost use Rattle.txn_machine.specs.Ghosts.{the_views};
ghost use Rattle.txn_machine.specs.Keeping.{Put, Pay};
ghost use Rattle.txn_machine.specs.Log.{Log, Within, Above, logs, opened_log, reserved, end_bytes, block_bytes, owed_bytes, ghost_bytes, still_owed, definition_need, carried};
ghost use Rattle.txn_machine.specs.Records.{write_bytes, delta_bytes, group_bytes};
ghost use Rattle.txn_machine.specs.Steps.{put_owed, with_ghost, log_need};
ghost use Rattle.txn_machine.specs.Store.{Store, opened, does, change_at, schema_of, now, Opens, Writes, Pays, Ghosts, Undoes, Ends, Commits, Defines, Cleans};
ghost use Rattle.txn_machine.specs.Stored.{ViewRows};
ghost use Rattle.log_room.specs.Rooms.{IsRoomOf, OwesFirst, KeepsLatest, OwesNothing, ghost_left};

use iv_types::EngineRefusal;

// A block's gate and its length.
const BLOCK_BYTES: u64 = 5;

/// What a log uses that has an empty block: that block, and the gate of the next.
pub const EMPTY_LOG: u64 = 6;

/// What a serial transaction reserves for its end: its Commit with the end of a block.
pub const END_BYTES: u64 = 40;

// The bytes of an Undo, of a Commit and of an Abort.
const UNDO_BYTES: u64 = 25;

const COMMIT_BYTES: u64 = 29;

const ABORT_BYTES: u64 = 17;

/// What is used and reserved of the log's area. Where the log has no limit nothing is said of the numbers.
#[derive(Clone, Copy, Debug, PartialEq, Eq)]
pub struct LogRoom {
    /// The bytes of an area, where there is such a limit.
    pub limit: Option<u32>,
    /// The bytes up to the next block's gate and with it, and of the records that wait.
    pub used: u64,
    /// What is kept for records that may still be due.
    pub reserved: u64,
}

// So many bytes, or none.
fn unless(none: bool, bytes: u64) -> u64
    ensures { result ≡ cond none 0 bytes }
{
    if none { 0 } else { bytes }
}

impl LogRoom {
    /// The room of a log that has an empty block.
    pub fn new(limit: Option<u32>) -> LogRoom
        requires { Within limit (block_bytes + 1) }
        ensures limit { result.limit ≡ limit }
        ensures room { (db : Database) (view : ViewRows) (next : ℕ) → IsRoomOf result (opened db view) (opened_log next) }
    {
        LogRoom {
            limit,
            used: EMPTY_LOG,
            reserved: 0,
        }
    }

    /// Why so many bytes more are refused, if they are.
    pub fn refusal(&self, need: u64) -> Option<EngineRefusal>
        ensures none { (s : Store) (l : Log) → IsRoomOf self.now s l → IfNone result (Within self.now.limit (l.used + reserved s l + need)) }
        ensures some { (s : Store) (l : Log) → IsRoomOf self.now s l → IfSome result (λ why. (why ≡ LogFull l.used (reserved s l) need) × Above self.now.limit (l.used + reserved s l + need)) }
    {
        let most = self.limit?;
        let all = self.used.saturating_add(self.reserved).saturating_add(need);
        if all <= u64::from(most) {
            return None;
        }
        Some(EngineRefusal::LogFull {
            used: self.used,
            reserved: self.reserved,
            need,
        })
    }

    // So many bytes are appended and so many reserved, and then so many that were reserved are given back.
    fn move_by(&mut self, appended: u64, reserved: u64, released: u64)
        ensures used { self.new.used ≡ min (self.old.used + appended) (2 ^ 64 - 1) }
        ensures reserved { self.new.reserved ≡ min (self.old.reserved + reserved) (2 ^ 64 - 1) - released }
        ensures limit { self.new.limit ≡ self.old.limit }
    {
        self.used = self.used.saturating_add(appended);
        self.reserved = self
            .reserved
            .saturating_add(reserved)
            .saturating_sub(released);
    }

    /// A serial transaction begins, for the end of which there is room.
    pub fn begin(&mut self)
        ensures limit { self.new.limit ≡ self.old.limit }
        ensures room { (s : Store) (l : Log) (session : ℕ) (a : Act) → IsSession session → s.open_of session ≡ None → IsRoomOf self.old s l
            → Within self.old.limit (l.used + reserved s l + end_bytes) → IsRoomOf self.new (does the_views s session (Opens Serial)) (logs s session a (Opens Serial) l) }
    {
        self.move_by(0, END_BYTES, 0);
    }

    /// A row is changed, for which there is room: its record has so many bytes, and the deltas that it owes reserve so many.
    pub fn put(&mut self, written: u64, owed: u64)
        ensures limit { self.new.limit ≡ self.old.limit }
        ensures room { (s : Store) (l : Log) (session : ℕ) (a : Act) (place : Place) (new : Option Row) → OwesNothing s session → IsRoomOf self.old s l
            → written ≡ told_need (write_bytes (schema_of s) (change_at s place new)) → owed ≡ told_need (owed_bytes false (put_owed s (change_at s place new)))
            → Within self.old.limit (l.used + reserved s l + log_need s (change_at s place new)) → IsRoomOf self.new (does the_views s session (Writes place new)) (logs s session a (Writes place new) l) }
    {
        self.move_by(written, owed.saturating_add(UNDO_BYTES), 0);
    }

    /// The delta that is owed next is added to its row: its record has so many bytes, and so many are still reserved for its Ghost.
    pub fn pay(&mut self, appended: u64, for_ghost: u64)
        ensures limit { self.new.limit ≡ self.old.limit }
        ensures room { (s : Store) (l : Log) (session : ℕ) (a : Act) (d : Delta) (ghosted : Bool) → OwesFirst s l session d ghosted → IsRoomOf self.old s l
            → appended ≡ told_need (delta_bytes d) → for_ghost ≡ told_need (ghost_left ghosted d) → IsRoomOf self.new (does the_views s session Pays) (logs s session a Pays l) }
    {
        self.move_by(appended, 0, appended.saturating_add(for_ghost));
    }

    /// The row of the delta that is owed next is made: its record has so many bytes.
    pub fn make_ghost(&mut self, appended: u64)
        ensures limit { self.new.limit ≡ self.old.limit }
        ensures room { (s : Store) (l : Log) (session : ℕ) (a : Act) (d : Delta) → OwesFirst s l session d false → IsRoomOf self.old s l → appended ≡ told_need (ghost_bytes d)
            → IsRoomOf self.new (does the_views s session (Ghosts (place_of d) (length (columns_of d)))) (with_ghost (logs s session a (Ghosts (place_of d) (length (columns_of d))) l) session) }
    {
        self.move_by(appended, 0, appended);
    }

    /// The row of the delta that is owed next is there, so that it needs no Ghost any more, for which so many bytes are still reserved.
    pub fn find_row(&mut self, for_ghost: u64)
        ensures limit { self.new.limit ≡ self.old.limit }
        ensures room { (s : Store) (l : Log) (session : ℕ) (d : Delta) (ghosted : Bool) → OwesFirst s l session d ghosted → IsRoomOf self.old s l → for_ghost ≡ told_need (ghost_left ghosted d)
            → IsRoomOf self.new s (with_ghost l session) }
    {
        self.move_by(0, 0, for_ghost);
    }

    /// The latest change is taken back, of which so many bytes are reserved for what it still owes.
    pub fn undo_put(&mut self, owed: u64)
        ensures limit { self.new.limit ≡ self.old.limit }
        ensures room { (s : Store) (l : Log) (session : ℕ) (a : Act) (c : RowChange) (deltas : List Delta) → KeepsLatest s l session (Put c deltas) → IsRoomOf self.old s l
            → owed ≡ told_need (owed_bytes (l.logged session).ghosted (still_owed (now s session))) → IsRoomOf self.new (does the_views s session Undoes) (logs s session a Undoes l) }
    {
        self.move_by(UNDO_BYTES, 0, owed.saturating_add(UNDO_BYTES));
    }

    /// The latest pay is taken back.
    pub fn undo_pay(&mut self)
        ensures limit { self.new.limit ≡ self.old.limit }
        ensures room { (s : Store) (l : Log) (session : ℕ) (a : Act) (d : Delta) → KeepsLatest s l session (Pay d) → IsRoomOf self.old s l → IsRoomOf self.new (does the_views s session Undoes) (logs s session a Undoes l) }
    {
        self.move_by(UNDO_BYTES, 0, UNDO_BYTES);
    }

    /// A serial transaction ends that keeps nothing; an Abort is due where it has appended a record.
    pub fn end(&mut self, wrote: bool)
        ensures limit { self.new.limit ≡ self.old.limit }
        ensures room { (s : Store) (l : Log) (session : ℕ) (a : Act) → OwesNothing s session → (now s session).kept ≡ [] → (l.logged session).wrote ≡ wrote → IsRoomOf self.old s l
            → IsRoomOf self.new (does the_views s session Ends) (logs s session a Ends l) }
    {
        let record = unless(!wrote, ABORT_BYTES);
        self.move_by(record, 0, END_BYTES);
    }

    /// A transaction is committed that keeps so many steps.
    pub fn commit(&mut self, kept: u64)
        ensures limit { self.new.limit ≡ self.old.limit }
        ensures room { (s : Store) (l : Log) (session : ℕ) (a : Act) → OwesNothing s session → kept ≡ length (now s session).kept → IsRoomOf self.old s l
            → IsRoomOf self.new (does the_views s session Commits) (logs s session a Commits l) }
    {
        let undos = kept.saturating_mul(UNDO_BYTES);
        self.move_by(
            COMMIT_BYTES + BLOCK_BYTES,
            0,
            undos.saturating_add(END_BYTES),
        );
    }

    /// A definition is entered, which needs so many bytes: those of its record and the end of a block. There is room for them.
    pub fn define(&mut self, need: u64)
        ensures limit { self.new.limit ≡ self.old.limit }
        ensures room { (s : Store) (l : Log) (session : ℕ) (statement : StatementTree) (object : Object) → need ≡ told_need (definition_need statement) → IsRoomOf self.old s l
            → Within self.old.limit (l.used + reserved s l + definition_need statement) → IsRoomOf self.new (does the_views s session (Defines object)) (logs s session (act.Schema statement) (Defines object) l) }
    {
        self.move_by(need, 0, 0);
    }

    /// A ghost is removed: its record has so many bytes, for which there is room.
    pub fn clean(&mut self, appended: u64)
        ensures limit { self.new.limit ≡ self.old.limit }
        ensures room { (s : Store) (l : Log) (session : ℕ) (a : Act) (place : Place) → appended ≡ told_need (group_bytes place) → IsRoomOf self.old s l
            → Within self.old.limit (l.used + reserved s l + group_bytes place) → IsRoomOf self.new (does the_views s session (Cleans place)) (logs s session a (Cleans place) l) }
    {
        self.move_by(appended, 0, 0);
    }

    /// A checkpoint leaves one block, with so many bytes of carried records, which with its gates are no more than what was used.
    pub fn save(&mut self, bytes: u64)
        ensures limit { self.new.limit ≡ self.old.limit }
        ensures room { (s : Store) (l : Log) → bytes ≡ told_need (carried s) → block_bytes + 1 + carried s ≤ l.used → IsRoomOf self.old s l → IsRoomOf self.new s (record l { used = block_bytes + 1 + carried s }) }
    {
        self.used = bytes.saturating_add(EMPTY_LOG);
    }
}
