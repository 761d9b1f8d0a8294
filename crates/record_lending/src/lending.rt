//! Records that are lent.
ghost use Rattle.std.specs.Prelude.{◌≡◌};
ghost use Rattle.std.specs.Option.{option_copied};
ghost use Rattle.iv_types.specs.Definitions.{Definitions};
ghost use Rattle.iv_meaning.specs.Objects.{schema_of};
ghost use Rattle.iv_meaning.specs.Schema.{Schema};
ghost use Rattle.txn_machine.specs.Deltas.{place_of};
ghost use Rattle.txn_machine.specs.Records.{Write, Delta, Ghost, Clean, Undo, Commit, Abort, Definition};
ghost use Rattle.txn_machine.specs.RowChanges.{row_change};
ghost use Rattle.table_store.specs.Stored.{IsTableAnd};
ghost use Rattle.table_store.specs.Changes.{IsKept};
ghost use Rattle.log_records.specs.Lent.{stands_for};
ghost use Rattle.log_disk.specs.Spelled.{in_bytes};
ghost use Rattle.record_lending.specs.Steps as steps;
ghost use Rattle.record_lending.specs.Steps.{HasItsEntries, first_value};

use iv_types::{GroupDelta, IndexEntryList, Kept, KeptStep};
use log_records::LentRecord;

// The row of a change's entries, which stands in the first of them, if there are any.
fn row_in(entries: &IndexEntryList) -> Option<&[u8]>
    ensures { option_copied result ≡ first_value entries.now }
{
    match entries.as_slice() {
        [first, ..] => Some(first.value.as_slice()),
        [] => None,
    }
}

/// The Write of a change that a transaction made. Its rows in bytes are those of the entries that it took away and made in
/// the table's own index.
pub fn write_of(transaction: u64, kept: &Kept) -> LentRecord<'_>
    ensures { (definitions : Definitions) → IsTableAnd definitions kept.now.change.table (IsKept definitions kept.now.change kept.now)
        → stands_for result ≡ in_bytes (schema_of definitions) (Write transaction (row_change kept.now.change)) }
{
    LentRecord::Write {
        transaction,
        table: kept.change.table,
        key: kept.change.key.as_slice(),
        before: row_in(&kept.gone),
        after: row_in(&kept.made),
    }
}

/// The Delta of a pay, of the next owed delta before it is paid or of one that was paid.
pub fn delta_of(transaction: u64, delta: &GroupDelta) -> LentRecord<'_>
    ensures { (objects : Schema) → stands_for result ≡ in_bytes objects (Delta transaction delta.now) }
{
    LentRecord::Delta {
        transaction,
        view: delta.view,
        group: delta.group.as_slice(),
        count: delta.count,
        sums: delta.sums.as_slice(),
    }
}

/// The record of a step that a transaction keeps.
pub fn step_of(transaction: u64, step: &KeptStep) -> LentRecord<'_>
    ensures { (definitions : Definitions) → HasItsEntries definitions step.now
        → stands_for result ≡ in_bytes (schema_of definitions) (steps.record_of transaction step.now) }
{
    match step {
        KeptStep::Put { kept, .. } => write_of(transaction, kept),
        KeptStep::Pay { delta, .. } => delta_of(transaction, delta),
    }
}

/// The number of the record of a step that a transaction keeps.
pub fn number_of(step: &KeptStep) -> u64
    ensures { result ≡ steps.number_of step.now }
{
    match step {
        KeptStep::Put { number, .. } => *number,
        KeptStep::Pay { number, .. } => *number,
    }
}

/// The Ghost of the row on which a delta is to be paid.
pub fn ghost_of(delta: &GroupDelta) -> LentRecord<'_>
    ensures { (objects : Schema) → stands_for result ≡ in_bytes objects (Ghost (place_of delta.now)) }
{
    LentRecord::Ghost {
        view: delta.view,
        group: delta.group.as_slice(),
    }
}

/// The Clean of the row of a group of a view.
pub fn clean_of(view: u32, group: &[u8]) -> LentRecord<'_>
    ensures { (objects : Schema) → stands_for result ≡ in_bytes objects (Clean (view, group.now)) }
{
    LentRecord::Clean { view, group }
}

/// The Undo of a transaction's record of this number.
pub fn undo_of(transaction: u64, number: u64) -> LentRecord<'static>
    ensures { (objects : Schema) → stands_for result ≡ in_bytes objects (Undo transaction number) }
{
    LentRecord::Undo {
        transaction,
        number,
    }
}

/// The Commit of a session's transaction, with its commit number.
pub fn commit_of(transaction: u64, commit: u64, session: u32) -> LentRecord<'static>
    ensures { (objects : Schema) → stands_for result ≡ in_bytes objects (Commit transaction commit session) }
{
    LentRecord::Commit {
        transaction,
        commit,
        session,
    }
}

/// The Abort of a transaction.
pub fn abort_of(transaction: u64) -> LentRecord<'static>
    ensures { (objects : Schema) → stands_for result ≡ in_bytes objects (Abort transaction) }
{
    LentRecord::Abort { transaction }
}

/// The Schema of a session's definition by its text, with its commit number.
pub fn definition_of(commit: u64, session: u32, text: &[u8]) -> LentRecord<'_>
    ensures { (objects : Schema) → stands_for result ≡ in_bytes objects (Definition commit session text.now) }
{
    LentRecord::Schema {
        commit,
        session,
        text,
    }
}
