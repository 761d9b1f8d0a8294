//! The rows of a table in an interval at a commit number.
ghost use Rattle.std.specs.Prelude.{◌≡◌, ◌≤◌, ◌++◌, ◌∷◌, [], List, IfOk, OnOk, IsSome};
ghost use Rattle.std.specs.Option.{option_copied};
ghost use Rattle.std.specs.FinMap.{get, entries};
ghost use Rattle.iv_types.specs.Maps.{Map};
ghost use Rattle.iv_meaning.specs.Database as meaning;
ghost use Rattle.iv_meaning.specs.Database.{Database, Rows};
ghost use Rattle.iv_meaning.specs.Objects.{schema_of};
ghost use Rattle.iv_meaning.specs.View as view;
ghost use Rattle.table_store.specs.Stored.{AreRows, Decode, between, IsTableAnd, OfTable};
ghost use Rattle.data_store.specs.Past as past;

use crate::shown::is_before;
use crate::store::DataStore;
use iv_types::{Bytes, Interval, NoMemory, RowList, SortedMaps, TableDef};
use row_codec::row_law;
use std::alloc::Global;
use table_store::{row_of, table_of};

// The lesser of two keys, or the one that there is.
fn lesser<'a>(one: Option<&'a [u8]>, other: Option<&'a [u8]>) -> Option<&'a [u8]>
    ensures { option_copied result ≡ past.lesser (option_copied one.entry) (option_copied other.entry) }
{
    match (one, other) {
        (Some(a), Some(b)) => { if a.cmp(&b).is_gt() { Some(b) } else { Some(a) } }
        (Some(a), None) => Some(a),
        (None, b) => b,
    }
}

// The key right behind a key: its bytes and a zero.
fn next_key(alloc: Global, key: &[u8]) -> Result<Bytes, NoMemory>
    ensures { IfOk result (λ next. next ≡ key.now ++ 0 ∷ []) }
{
    let mut bytes = Vec::from_slice(alloc, key)?;
    bytes.push(0)?;
    Ok(Bytes::from_vec(bytes))
}

impl<M: SortedMaps> DataStore<M> {
    ghost use Rattle.data_store.specs.Past.{value_at, WereRows, IsMapAt, entry_of, IsKnown, IsLeast};

    // The least key of an index, from one on, under which the maps have an entry.
    fn entry_from(&self, index: u32, key: &[u8]) -> Option<&[u8]>
        ensures { IsLeast (λ k. IsSome (get (M.maps self.now.tables index) k)) key.now (option_copied result) }
    {
        match self.tables.maps().first_at(index, key) {
            Some((found, _)) => Some(found),
            None => None,
        }
    }

    // The least one of which open transactions keep changes.
    fn pending_from(&self, index: u32, key: &[u8]) -> Option<&[u8]>
        ensures { IsLeast (λ k. IsSome (get self.now.pending.entries (index, k))) key.now (option_copied result) }
    {
        match self.pending.first_at(index, key) {
            Some((of, found)) if of == index => Some(found),
            _ => None,
        }
    }

    // The least one under which something stands, or did at some number.
    fn known_from(&self, index: u32, key: &[u8]) -> Option<&[u8]>
        ensures { IsLeast (IsKnown self.now.row_versions.versions self.now.pending.entries (M.maps self.now.tables) index) key.now (option_copied result) }
    {
        let present = lesser(self.entry_from(index, key), self.pending_from(index, key));
        lesser(present, self.row_versions.first_from(index, key))
    }

    // Adds the row of a table that stood under a key at a commit number, if one did.
    fn add_row_at(
        &self,
        number: u64,
        table: &TableDef,
        rows: &mut RowList,
        key: &[u8],
    ) -> Result<(), NoMemory>
        requires kept { self.now.row_versions.pruned ≤ number }
        requires rows { (m : Map) × IsMapAt number self.now.row_versions.versions self.now.pending.entries (M.maps self.now.tables) table.now.number m × AreRows table.now m }
        ensures { OnOk result ((here : List meaning.Row) × (rows.new ≡ rows.old ++ here)
            × Decode table.now (entry_of key.now (value_at number self.now.row_versions.versions self.now.pending.entries (M.maps self.now.tables) (table.now.number, key.now))) here) }
    {
        match self.value_at(number, table.number, key)? {
            Some(bytes) => rows.push(row_of(self.alloc, table, bytes.as_slice())?),
            None => Ok(()),
        }
    }

    // The rows of a table that stood in an interval.
    fn rows_between_at(
        &self,
        number: u64,
        table: &TableDef,
        interval: &Interval,
    ) -> Result<RowList, NoMemory>
        requires kept { self.now.row_versions.pruned ≤ number }
        requires rows { (m : Map) × IsMapAt number self.now.row_versions.versions self.now.pending.entries (M.maps self.now.tables) table.now.number m × AreRows table.now m }
        ensures { IfOk result (λ rows. (m : Map) → IsMapAt number self.now.row_versions.versions self.now.pending.entries (M.maps self.now.tables) table.now.number m
            → Decode table.now (between interval.now (entries m)) rows) }
    {
        let mut rows = RowList::new(self.alloc);
        let mut from = Bytes::from_vec(Vec::from_slice(self.alloc, interval.low.as_slice())?);
        while let Some(key) = self.known_from(table.number, from.as_slice()) {
            if !is_before(key, &interval.high) {
                break;
            }
            self.add_row_at(number, table, &mut rows, key)?;
            from = next_key(self.alloc, key)?;
        }
        Ok(rows)
    }

    /// The rows of a table that stood at a commit number and whose encoded primary keys lie in an interval, in the order of these.
    /// It looks at no key outside the interval but the first one behind it. The number is not below what was pruned.
    ///
    /// # Errors
    ///
    /// Where there is no memory for them.
    pub fn rows_at(&self, number: u64, table: u32, interval: &Interval) -> Result<RowList, NoMemory>
        requires kept { self.now.row_versions.pruned ≤ number }
        requires rows { IsTableAnd self.now.catalog table (λ t. (rows : Rows) × WereRows number self.now.row_versions.versions self.now.pending.entries (M.maps self.now.tables) rows t) }
        ensures { IfOk result (λ rows. (db : Database) → db.schema ≡ schema_of self.now.catalog
            → OfTable self.now.catalog table (WereRows number self.now.row_versions.versions self.now.pending.entries (M.maps self.now.tables) db.rows) → view.read db table interval.now ≡ rows) }
    {
        row_law();
        self.rows_between_at(number, table_of(&self.catalog, table), interval)
    }
}
