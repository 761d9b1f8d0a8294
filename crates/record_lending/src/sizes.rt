//! How many bytes records take in the log. A number that does not fit stands still at the end of a `u64`.
ghost use Rattle.std.specs.Prelude.{◌≡◌, ℕ, ◌+◌, length, reverse, false};
ghost use Rattle.iv_types.specs.Definitions.{Definitions};
ghost use Rattle.iv_meaning.specs.Objects.{schema_of};
ghost use Rattle.iv_meaning.specs.Schema.{Schema};
ghost use Rattle.txn_machine.specs.Counts.{told_need};
ghost use Rattle.txn_machine.specs.Log as log;
ghost use Rattle.txn_machine.specs.Records as machine;
ghost use Rattle.txn_machine.specs.RowChanges.{row_change};
ghost use Rattle.table_store.specs.Stored.{IsTableAnd};
ghost use Rattle.table_store.specs.Changes.{IsKept};
ghost use Rattle.log_records.specs.Lent.{stands_for};
ghost use Rattle.log_records.specs.Spelling.{spelling};
ghost use Rattle.log_disk.specs.Spelled.{in_bytes};

use crate::lending::{clean_of, delta_of, ghost_of, write_of};
use iv_types::{GroupDelta, Kept};
use log_records::{LentRecord, entry_size};

// What an Undo takes.
const UNDO_BYTES: u64 = 25;

/// What a record takes in the log.
pub fn record_bytes(lent: LentRecord<'_>) -> u64
    ensures spelled { (number : ℕ) → result ≡ told_need (length (spelling number (stands_for lent.entry))) }
    ensures counted { (objects : Schema) (r : machine.Record) → stands_for lent.entry ≡ in_bytes objects r → result ≡ told_need (machine.record_bytes objects r) }
{
    entry_size(lent).min(u128::from(u64::MAX)) as u64
}

/// What the Write of a change that was made takes.
pub fn write_bytes(kept: &Kept) -> u64
    ensures { (definitions : Definitions) → IsTableAnd definitions kept.now.change.table (IsKept definitions kept.now.change kept.now)
        → result ≡ told_need (machine.write_bytes (schema_of definitions) (row_change kept.now.change)) }
{
    record_bytes(write_of(0, kept))
}

/// What the Delta of a pay takes.
pub fn delta_bytes(delta: &GroupDelta) -> u64
    ensures { result ≡ told_need (machine.delta_bytes delta.now) }
{
    record_bytes(delta_of(0, delta))
}

/// What the Ghost or the Clean of the row of a group of a view takes.
pub fn group_bytes(view: u32, group: &[u8]) -> u64
    ensures { result ≡ told_need (machine.group_bytes (view, group.now)) }
{
    record_bytes(clean_of(view, group))
}

/// What the Ghost of the row on which a delta is to be paid takes.
pub fn ghost_bytes(delta: &GroupDelta) -> u64
    ensures { result ≡ told_need (log.ghost_bytes delta.now) }
{
    record_bytes(ghost_of(delta))
}

/// What an owed delta reserves for its pay: its Delta, and the Undo of that.
pub fn pay_bytes(delta: &GroupDelta) -> u64
    ensures { result ≡ told_need (log.pay_bytes delta.now) }
{
    delta_bytes(delta).saturating_add(UNDO_BYTES)
}

// What an owed delta reserves for its pay and for the Ghost before it.
fn pay_and_ghost_bytes(delta: &GroupDelta) -> u64
    ensures { result ≡ told_need (log.pay_bytes delta.now + log.ghost_bytes delta.now) }
{
    pay_bytes(delta).saturating_add(ghost_bytes(delta))
}

// What owed deltas reserve of which none had its Ghost.
fn unghosted_bytes(owed: &[GroupDelta]) -> u64
    ensures { result ≡ told_need (log.owed_bytes false owed.now) }
{
    let mut bytes: u64 = 0;
    for delta in owed {
        bytes = bytes.saturating_add(pay_and_ghost_bytes(delta));
    }
    bytes
}

/// What a transaction's owed deltas reserve, of which the next to be paid stands last, as a transaction keeps them: their
/// pays, and their Ghosts, where the next one may have had its own. Those that are coming back by undo are left out.
pub fn owed_bytes(owed: &[GroupDelta], is_ghosted: bool) -> u64
    ensures { result ≡ told_need (log.owed_bytes is_ghosted (reverse owed.now)) }
{
    if !is_ghosted {
        return unghosted_bytes(owed);
    }
    match owed {
        [others @ .., next] => unghosted_bytes(others).saturating_add(pay_bytes(next)),
        [] => 0,
    }
}
