//! New indexes, filled from the rows of their tables.
ghost use Rattle.std.specs.Prelude.{◌≡◌, ◌≢◌, ◌+◌, ◌≤◌, ℕ, List, length, IfOk};
ghost use Rattle.std.specs.FinMap as map;
ghost use Rattle.iv_types.specs.Encoding.{kinds_of, FitAll, row_bytes};
ghost use Rattle.iv_types.specs.declared.value.Value.{Value};
ghost use Rattle.table_store.specs.Stored.{AreRows};
ghost use Rattle.table_store.specs.Filling.{index_entry, AreIndexEntries, CanPutAll, filled};

use crate::row_entries::index_key;
use crate::stored::row_of;
use iv_types::{Bytes, IndexDef, IndexEntry, IndexEntryList, NoMemory, SortedMaps, TableDef};
use row_codec::row_law;
use std::alloc::Global;

// The entry in an index of the row whose bytes these are.
fn entry_of(
    alloc: Global,
    table: &TableDef,
    index: &IndexDef,
    bytes: &[u8],
) -> Result<IndexEntry, NoMemory>
    requires { (row : List Value) × FitAll (kinds_of table.now) row × (bytes.now ≡ row_bytes (kinds_of table.now) row) }
    ensures { IfOk result (λ entry. (row : List Value) → FitAll (kinds_of table.now) row → bytes.now ≡ row_bytes (kinds_of table.now) row → entry ≡ index_entry table.now index.now row) }
{
    row_law();
    let row = row_of(alloc, table, bytes)?;
    let key = index_key(alloc, table, index, &row)?;
    Ok(IndexEntry {
        index: index.number,
        key,
        value: Bytes::new(alloc),
    })
}

/// The entries that an index has for the rows of its table, in the order of the rows' keys.
///
/// # Errors
///
/// Where there is no memory for them.
pub fn index_entries<M: SortedMaps>(
    alloc: Global,
    maps: &M,
    table: &TableDef,
    index: &IndexDef,
) -> Result<IndexEntryList, NoMemory>
    requires { AreRows table.now (M.maps maps.now table.now.number) }
    ensures { IfOk result (AreIndexEntries table.now index.now (M.maps maps.now table.now.number)) }
{
    let mut found = IndexEntryList::new(alloc);
    let mut next = maps.first_at(table.number, &[]);
    while let Some((key, bytes)) = next {
        found.push(entry_of(alloc, table, index, bytes)?)?;
        next = maps.first_after(table.number, key);
    }
    Ok(found)
}

/// Puts entries into an index, into room that was made.
pub fn put_all<M: SortedMaps>(maps: &mut M, index: u32, entries: IndexEntryList)
    requires { CanPutAll index (M.maps maps.old) (M.spare maps.old index) (M.limit maps.old) entries }
    ensures map { M.maps maps.new index ≡ filled (M.maps maps.old index) entries }
    ensures others { (n : ℕ) → n ≢ index → M.maps maps.new n ≡ M.maps maps.old n }
    ensures room { M.spare maps.old index ≤ M.spare maps.new index + length entries }
    ensures other_rooms { (n : ℕ) → n ≢ index → M.spare maps.old n ≤ M.spare maps.new n }
    ensures limit { M.limit maps.new ≡ M.limit maps.old }
{
    let mut left = entries.into_vec();
    while let Some(IndexEntry { key, value, .. }) = left.pop() {
        maps.insert(index, key, value);
    }
}
