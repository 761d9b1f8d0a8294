//! What a change of a row counts: in its transaction, in the history, in the log and in the data. A number that does not fit
//! stands still at the end of a `u64`, and none takes memory.
ghost use Rattle.std.specs.Prelude.{◌≡◌, ◌+◌, ◌*◌, ◌-◌, ◌^◌, ◌≤◌, min, Option, IfSome};
ghost use Rattle.std.specs.Option.{option_map_or};
ghost use Rattle.iv_types.specs.Encoding.{FitAll};
ghost use Rattle.iv_meaning.specs.Schema.{numbered, kinds_of_table};
ghost use Rattle.iv_meaning.specs.Objects.{schema_of};
ghost use Rattle.txn_machine.specs.Counts as counts;
ghost use Rattle.txn_machine.specs.Log as log;
ghost use Rattle.txn_machine.specs.Records as records;
ghost use Rattle.txn_machine.specs.RowChanges.{row_change};
ghost use Rattle.view_delta.specs.Owing.{RowsFit};

use crate::deltas::{capped, delta_entries, kept_by, reserved};
use crate::entries::perhaps_entries;
use crate::store::DataStore;
use iv_types::{Catalog, Change, Definition, GroupDelta, Row, SortedMaps};
use row_codec::table_row_len;

// What a change counts in its transaction, besides its bytes and what it owes.
const PUT_BYTES: u128 = 128;

// What it counts in the history, besides its bytes.
const KEPT_BYTES: u128 = 32;

// Of a row's length in a record.
const LENGTH_BYTES: u128 = 2;

// Of the record of a change, besides its bytes and the lengths of its rows, and of that of its undo.
const RECORD_BYTES: u128 = 50;

// The bytes of a row of a table.
fn row_size(catalog: &Catalog, table: u32, row: &Row) -> u128
    requires { FitAll (kinds_of_table (numbered (schema_of catalog.now) table)) row.now }
    ensures size { result ≡ counts.row_size (kinds_of_table (numbered (schema_of catalog.now) table)) row.now }
    ensures most { result ≤ 202 * 2 ^ 64 }
{
    match catalog.get(table) {
        Some(Definition::Table(table)) => table_row_len(table, row),
        _ => 0,
    }
}

// The same where there may be none.
fn perhaps_size(catalog: &Catalog, table: u32, row: &Option<Row>) -> u128
    requires { IfSome row.now (FitAll (kinds_of_table (numbered (schema_of catalog.now) table))) }
    ensures size { result ≡ counts.perhaps_size (kinds_of_table (numbered (schema_of catalog.now) table)) row.now }
    ensures most { result ≤ 202 * 2 ^ 64 }
{
    match row {
        Some(row) => row_size(catalog, table, row),
        None => 0,
    }
}

// The bytes of a change: its key, and the rows before and after.
fn change_size(catalog: &Catalog, change: &Change) -> u128
    requires { RowsFit (schema_of catalog.now) change.now }
    ensures size { result ≡ counts.change_size (schema_of catalog.now) (row_change change.now) }
    ensures most { result ≤ 405 * 2 ^ 64 }
{
    change.key.as_slice().len() as u128
        + perhaps_size(catalog, change.table, &change.before)
        + perhaps_size(catalog, change.table, &change.after)
}

// The bytes of a row's length in a record, if it is there.
fn length_bytes(row: &Option<Row>) -> u128
    ensures { result ≡ option_map_or (λ r. 2) row.now 0 }
{
    match row {
        Some(_) => LENGTH_BYTES,
        None => 0,
    }
}

// The bytes of a change's record, and of that of its undo.
fn record_size(catalog: &Catalog, change: &Change) -> u128
    requires { RowsFit (schema_of catalog.now) change.now }
    ensures size { result ≡ records.write_bytes (schema_of catalog.now) (row_change change.now) + records.undo_bytes }
    ensures most { result ≤ 406 * 2 ^ 64 }
{
    change_size(catalog, change)
        + length_bytes(&change.before)
        + length_bytes(&change.after)
        + RECORD_BYTES
}

// By how much the entries of a row in all indexes of its table are more than those of another.
fn growth_to(catalog: &Catalog, change: &Change, row: &Option<Row>, other: &Option<Row>) -> u64
    requires row { IfSome row.now (FitAll (kinds_of_table (numbered (schema_of catalog.now) change.now.table))) }
    requires other { IfSome other.now (FitAll (kinds_of_table (numbered (schema_of catalog.now) change.now.table))) }
    ensures { result ≡ min (log.perhaps_entries (schema_of catalog.now) (change.now.table, change.now.key) row.now - log.perhaps_entries (schema_of catalog.now) (change.now.table, change.now.key) other.now) (2 ^ 64 - 1) }
{
    let key = change.key.as_slice();
    let size = perhaps_entries(catalog, change.table, key, row);
    let other = perhaps_entries(catalog, change.table, key, other);
    capped(size.saturating_sub(other))
}

impl<M: SortedMaps> DataStore<M> {
    /// What a change and the deltas that it owes count in their transaction.
    pub fn put_size(&self, change: &Change, owed: &[GroupDelta]) -> u64
        requires { RowsFit (schema_of self.now.catalog) change.now }
        ensures { result ≡ min (counts.put_size (schema_of self.now.catalog) (row_change change.now) owed.now) (2 ^ 64 - 1) }
    {
        capped(PUT_BYTES + change_size(&self.catalog, change)).saturating_add(kept_by(owed))
    }

    /// What a change counts in the history.
    pub fn kept_change_size(&self, change: &Change) -> u64
        requires { RowsFit (schema_of self.now.catalog) change.now }
        ensures { result ≡ min (counts.kept_change_size (schema_of self.now.catalog) (row_change change.now)) (2 ^ 64 - 1) }
    {
        capped(KEPT_BYTES + change_size(&self.catalog, change))
    }

    /// What a change needs in the log: its record, that of its undo, and what the deltas that it owes reserve.
    pub fn write_need(&self, change: &Change, owed: &[GroupDelta]) -> u64
        requires { RowsFit (schema_of self.now.catalog) change.now }
        ensures { result ≡ min (log.write_need (schema_of self.now.catalog) (row_change change.now) owed.now) (2 ^ 64 - 1) }
    {
        capped(record_size(&self.catalog, change)).saturating_add(reserved(owed))
    }

    /// By how much a change enlarges the entries of the data.
    pub fn growth(&self, change: &Change) -> u64
        requires { RowsFit (schema_of self.now.catalog) change.now }
        ensures { result ≡ min (log.growth (schema_of self.now.catalog) (row_change change.now)) (2 ^ 64 - 1) }
    {
        growth_to(&self.catalog, change, &change.after, &change.before)
    }

    /// By how much it enlarges them to take a change back.
    pub fn growth_back(&self, change: &Change) -> u64
        requires { RowsFit (schema_of self.now.catalog) change.now }
        ensures { result ≡ min (log.growth_back (schema_of self.now.catalog) (row_change change.now)) (2 ^ 64 - 1) }
    {
        growth_to(&self.catalog, change, &change.before, &change.after)
    }

    /// What a change needs in the data: its growth, and the rows of the deltas that it owes.
    pub fn change_need(&self, change: &Change, owed: &[GroupDelta]) -> u64
        requires { RowsFit (schema_of self.now.catalog) change.now }
        ensures { result ≡ min (log.change_need (schema_of self.now.catalog) (row_change change.now) owed.now) (2 ^ 64 - 1) }
    {
        self.growth(change).saturating_add(delta_entries(owed))
    }
}
