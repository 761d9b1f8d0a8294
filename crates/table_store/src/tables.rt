//! Tables over sorted maps.
ghost use Rattle.std.specs.Prelude.{◌≡◌, ◌≢◌, ℕ, ◌+◌, ◌-◌, ◌^◌, ◌<◌, ◌≤◌, min, length, List, Some, ⊤, IfOk, IfSome, OnOk, OnErr};
ghost use Rattle.std.specs.FinMap as map;
ghost use Rattle.std.specs.Borrow.{Lends, sem};
ghost use Rattle.iv_types.specs.Encoding.{kinds_of, row_bytes};
ghost use Rattle.iv_types.specs.Maps.{used};
ghost use Rattle.iv_meaning.specs.Objects.{schema_of};
ghost use Rattle.iv_types.specs.declared.value.Value.{Value};
ghost use Rattle.iv_types.specs.declared.catalog.TableDef.{TableDef};
ghost use Rattle.iv_meaning.specs.Database.{Database, Rows};
ghost use Rattle.iv_meaning.specs.View as view;
ghost use Rattle.table_store.specs.Stored.{stored, StandsUnder, HoldsTable, HoldsIndex, HoldsRead, CanRead, IsEntryOf, AreEntries, Follow, AreRows, noted_row, noted_entries, noted_rows, listed_table, Decode, between, before, IsTableAnd, OfTable};
ghost use Rattle.table_store.specs.Changes.{Sets, SetsRow, IsChange, IsKept, KeepsRoom, TakesRoom, CanTakeBack, sizes};
ghost use Rattle.table_store.specs.Filling.{AreIndexEntries, CanFill};
ghost use Rattle.table_store.specs.Readying.{RowsFit, HasPlaces, IsReady};

use crate::exchange::{exchange, make_room};
use crate::filling::{index_entries, put_all};
use crate::keys::primary_part;
use crate::row_entries::own_entries;
use crate::stored::{copies_of, row_of, table_of};
use iv_types::{
    Bytes, Catalog, Change, Definition, IndexDef, IndexEntry, IndexEntryList, Interval, Kept,
    NoMemory, Row, RowList, SortedMaps, TableDef,
};
use row_codec::{key_law, row_law};
use std::alloc::Global;
use std::cmp::Ordering;
use std::marker::Model;

// What an entry counts, besides the bytes of its key and of its value.
const ENTRY_BYTES: u64 = 8;

// What a row counts in a note, besides its bytes.
const NOTED_ROW: u64 = 16;

// Whether the key is before the high end, where there is one.
fn is_before(key: &[u8], high: &Option<Bytes>) -> bool
    ensures { result ≡ before high.now key.now }
{
    match high {
        None => true,
        Some(end) => key.cmp(&end.as_slice()).is_lt(),
    }
}

// The rows of a table whose keys lie in the interval, in key order.
fn rows_between<M: SortedMaps>(
    alloc: Global,
    maps: &M,
    table: &TableDef,
    interval: &Interval,
) -> Result<Vec<Row>, NoMemory>
    requires { AreRows table.now (M.maps maps.now table.now.number) }
    ensures { IfOk result (λ rows. Decode table.now (between interval.now (map.entries (M.maps maps.now table.now.number))) rows.items) }
{
    let mut rows = Vec::new(alloc);
    let mut next = maps.first_at(table.number, interval.low.as_slice());
    while let Some((key, value)) = next {
        if !is_before(key, &interval.high) {
            break;
        }
        rows.push(row_of(alloc, table, value)?)?;
        next = maps.first_after(table.number, key);
    }
    Ok(rows)
}

// The row of an entry of an index that CREATE INDEX made.
fn row_behind<M: SortedMaps>(
    alloc: Global,
    maps: &M,
    table: &TableDef,
    index: &IndexDef,
    at: &[u8],
) -> Result<Row, NoMemory>
    requires { (row : List Value) × IsEntryOf table.now index.now (M.maps maps.now table.now.number) row at.now }
    ensures { IfOk result (λ row. IsEntryOf table.now index.now (M.maps maps.now table.now.number) row at.now) }
{
    row_law();
    let key = primary_part(table, index.columns.as_slice(), at);
    match maps.get(table.number, key) {
        Some(bytes) => row_of(alloc, table, bytes),
        None => unreachable!(),
    }
}

// The rows of a table whose keys in an index that CREATE INDEX made lie in the interval, in the order of those keys.
fn rows_by_index<M: SortedMaps>(
    alloc: Global,
    maps: &M,
    table: &TableDef,
    index: &IndexDef,
    interval: &Interval,
) -> Result<Vec<Row>, NoMemory>
    requires { AreEntries table.now index.now (M.maps maps.now table.now.number) (M.maps maps.now index.now.number) }
    ensures { IfOk result (λ rows. Follow table.now index.now (M.maps maps.now table.now.number) (between interval.now (map.entries (M.maps maps.now index.now.number))) rows.items) }
{
    let mut rows = Vec::new(alloc);
    let mut next = maps.first_at(index.number, interval.low.as_slice());
    while let Some((key, _)) = next {
        if !is_before(key, &interval.high) {
            break;
        }
        rows.push(row_behind(alloc, maps, table, index, key)?)?;
        next = maps.first_after(index.number, key);
    }
    Ok(rows)
}

// What the rows of a table whose keys lie in the interval count in a note. The sum stands still at the end of a `u64`.
fn noted_between<M: SortedMaps>(maps: &M, index: u32, interval: &Interval) -> u64
    ensures { result ≡ min (noted_entries (between interval.now (map.entries (M.maps maps.now index)))) (2 ^ 64 - 1) }
{
    let mut size: u64 = 0;
    let mut next = maps.first_at(index, interval.low.as_slice());
    while let Some((key, value)) = next {
        if !is_before(key, &interval.high) {
            break;
        }
        size = size
            .saturating_add(value.len() as u64)
            .saturating_add(NOTED_ROW);
        next = maps.first_after(index, key);
    }
    size
}

// What the row of an entry of an index that CREATE INDEX made counts in a note.
fn noted_behind<M: SortedMaps>(maps: &M, table: &TableDef, index: &IndexDef, at: &[u8]) -> u64
    requires { (row : List Value) × IsEntryOf table.now index.now (M.maps maps.now table.now.number) row at.now }
    ensures { (row : List Value) → IsEntryOf table.now index.now (M.maps maps.now table.now.number) row at.now → result ≡ min (length (row_bytes (kinds_of table.now) row) + noted_row) (2 ^ 64 - 1) }
{
    let key = primary_part(table, index.columns.as_slice(), at);
    match maps.get(table.number, key) {
        Some(bytes) => (bytes.len() as u64).saturating_add(NOTED_ROW),
        None => unreachable!(),
    }
}

// The same of the rows whose keys in such an index lie in the interval.
fn noted_by_index<M: SortedMaps>(
    maps: &M,
    table: &TableDef,
    index: &IndexDef,
    interval: &Interval,
) -> u64
    requires { AreEntries table.now index.now (M.maps maps.now table.now.number) (M.maps maps.now index.now.number) }
    ensures { (rows : List (List Value)) → Follow table.now index.now (M.maps maps.now table.now.number) (between interval.now (map.entries (M.maps maps.now index.now.number))) rows → result ≡ min (noted_rows table.now rows) (2 ^ 64 - 1) }
{
    let mut size: u64 = 0;
    let mut next = maps.first_at(index.number, interval.low.as_slice());
    while let Some((key, _)) = next {
        if !is_before(key, &interval.high) {
            break;
        }
        size = size.saturating_add(noted_behind(maps, table, index, key));
        next = maps.first_after(index.number, key);
    }
    size
}

/// A change that is ready to be made: what is kept of it, and the entries that it puts in.
#[derive(Drop)]
pub struct Ready {
    pub kept: Kept,
    pub coming: IndexEntryList,
}

/// What entries count, each the bytes of its key and of its value, and 8. A sum that does not fit stands still at the end of
/// a `u64`.
pub fn entry_bytes(entries: &[IndexEntry]) -> u64
    ensures { result ≡ min (sizes entries.now) (2 ^ 64 - 1) }
{
    let mut sum: u64 = 0;
    for entry in entries {
        sum = sum
            .saturating_add(entry.key.as_slice().len() as u64)
            .saturating_add(entry.value.as_slice().len() as u64)
            .saturating_add(ENTRY_BYTES);
    }
    sum
}

/// The tables of a database over sorted maps: under a table's number an entry for each of its rows, with the encoded
/// primary key as its key and the row's bytes as its value, and under the number of an index that CREATE INDEX made an entry
/// for each row of its table, with the row's key there and nothing behind it. Contracts see the maps.
#[derive(Drop)]
pub struct Tables<M: SortedMaps> {
    alloc: Global,
    maps: M,
}

impl<M: SortedMaps> Model for Tables<M> {
    ghost Value = { M };

    ghost view = { λ t. t.maps };
}

impl<M: SortedMaps> Tables<M> {
    ghost use Rattle.table_store.specs.contracts.tables.Tables.{the_row};

    /// Tables over these maps.
    ///
    /// # Errors
    ///
    /// Where there is no memory for them.
    pub fn new(alloc: Global, maps: M) -> Result<Self, NoMemory>
        ensures { IfOk result (λ tables. tables ≡ maps) }
    {
        Ok(Tables { alloc, maps })
    }

    /// The rows of a table whose keys in one of its indexes lie in the interval, in the order of those keys. The number is that
    /// of a table, for its primary index, or that of an index that CREATE INDEX made. The entries are those of rows.
    ///
    /// # Errors
    ///
    /// Where there is no memory for them.
    pub fn read(
        &self,
        catalog: &Catalog,
        index: u32,
        interval: &Interval,
    ) -> Result<RowList, NoMemory>
        requires { CanRead catalog.now (M.maps self.now) index }
        ensures entries { IfOk result (λ rows. OfTable catalog.now index (λ t. Decode t (between interval.now (map.entries (M.maps self.now index))) rows)) }
        ensures rows { IfOk result (λ rows. (db : Database) → db.schema ≡ schema_of catalog.now → HoldsRead catalog.now db.rows (M.maps self.now) index → view.read db index interval.now ≡ rows) }
    {
        row_law();
        key_law();
        match catalog.get(index) {
            Some(Definition::Table(table)) => {
                Ok(RowList::from_vec(rows_between(self.alloc, &self.maps, table, interval)?))
            }
            Some(Definition::Index(index)) => {
                let table = table_of(catalog, index.table);
                Ok(RowList::from_vec(rows_by_index(
                    self.alloc, &self.maps, table, index, interval,
                )?))
            }
            _ => unreachable!(),
        }
    }

    /// The row of a table under an encoded primary key, if one is there. The table's entries are rows.
    ///
    /// # Errors
    ///
    /// Where there is no memory for it.
    pub fn row(&self, catalog: &Catalog, table: u32, key: &[u8]) -> Result<Option<Row>, NoMemory>
        requires { IsTableAnd catalog.now table (λ t. AreRows t (M.maps self.now table)) }
        ensures stored { IfOk result (λ row. OfTable catalog.now table (λ t. map.get (M.maps self.now table) key.now ≡ stored t row)) }
        ensures stands { IfOk result (λ row. OfTable catalog.now table (λ t. IfSome row (StandsUnder t key.now))) }
        ensures row { IfOk result (λ row. (rows : Rows) → OfTable catalog.now table (λ t. HoldsTable rows t (M.maps self.now table)) → map.get rows (table, key.now) ≡ row) }
    {
        row_law();
        let definition = table_of(catalog, table);
        match self.maps.get(table, key) {
            Some(bytes) => Ok(Some(row_of(self.alloc, definition, bytes)?)),
            None => Ok(None),
        }
    }

    /// What the rows that `read` gives of this index and interval count in a note of their reading: the encoded bytes of
    /// each, and 16. It copies no row and takes no memory. A sum that does not fit stands still at the end of a `u64`.
    pub fn noted_between(&self, catalog: &Catalog, index: u32, interval: &Interval) -> u64
        requires { CanRead catalog.now (M.maps self.now) index }
        ensures { (db : Database) (t : TableDef) → db.schema ≡ schema_of catalog.now → listed_table catalog.now index ≡ Some t → HoldsRead catalog.now db.rows (M.maps self.now) index
            → result ≡ min (noted_rows t (view.read db index interval.now)) (2 ^ 64 - 1) }
    {
        row_law();
        key_law();
        match catalog.get(index) {
            Some(Definition::Table(table)) => noted_between(&self.maps, table.number, interval),
            Some(Definition::Index(index)) => {
                noted_by_index(&self.maps, table_of(catalog, index.table), index, interval)
            }
            _ => unreachable!(),
        }
    }

    /// Makes a change of one row of a table ready: the entries that it takes away and makes. Its rows fit the table. It changes
    /// nothing.
    ///
    /// # Errors
    ///
    /// Where there is no memory for it.
    pub fn prepare(&self, catalog: &Catalog, change: Change) -> Result<Ready, NoMemory>
        requires { IsTableAnd catalog.now change.table (RowsFit change) }
        ensures kept { IfOk result (λ ready. OfTable catalog.now change.table (IsKept catalog.now change ready.kept)) }
        ensures coming { IfOk result (λ ready. ready.coming ≡ ready.kept.made) }
    {
        let table = table_of(catalog, change.table);
        let key = &change.key;
        let gone = own_entries(
            self.alloc,
            catalog,
            table,
            key,
            &change.before,
            &change.after,
        )?;
        let made = own_entries(
            self.alloc,
            catalog,
            table,
            key,
            &change.after,
            &change.before,
        )?;
        let coming = copies_of(self.alloc, made.as_slice())?;
        let kept = Kept { change, gone, made };
        Ok(Ready { kept, coming })
    }

    /// Makes room for that many entries more in each index of a table. An `Err` takes no room away.
    ///
    /// # Errors
    ///
    /// Where there is no memory for them.
    pub fn reserve(&mut self, catalog: &Catalog, table: u32, more: u32) -> Result<(), NoMemory>
        requires { IsTableAnd catalog.now table (λ t. ⊤) }
        ensures room { OnOk result (OfTable catalog.now table (HasPlaces catalog.now more (M.spare self.new))) }
        ensures maps { (n : ℕ) → M.maps self.new n ≡ M.maps self.old n }
        ensures spare { (n : ℕ) → M.spare self.old n ≤ M.spare self.new n }
        ensures limit { M.limit self.new ≡ M.limit self.old }
    {
        let table = table_of(catalog, table);
        make_room(&mut self.maps, catalog, table, more)
    }

    /// Makes a change that is ready, into room that was made, and gives what is kept of it. An index in which the row keeps
    /// its key is left as it is. Takes no memory.
    pub fn apply(&mut self, catalog: &Catalog, ready: Ready) -> Kept
        requires { IsTableAnd catalog.now ready.kept.change.table (IsReady catalog.now ready (M.maps self.old) (M.spare self.old) (M.limit self.old)) }
        ensures kept { result ≡ ready.kept }
        ensures set { OfTable catalog.now ready.kept.change.table (Sets catalog.now ready.kept.change.key ready.kept.change.before ready.kept.change.after (M.maps self.old) (M.maps self.new)) }
        ensures rows { SetsRow catalog.now ready.kept.change.table ready.kept.change.key ready.kept.change.after (M.maps self.old) (M.maps self.new) }
        ensures spare { TakesRoom (M.spare self.old) (M.spare self.new) ready.kept.gone ready.kept.made }
        ensures limit { M.limit self.new ≡ M.limit self.old }
    {
        row_law();
        key_law();
        catalog.number_law();
        let Ready { kept, coming } = ready;
        exchange(&mut self.maps, kept.gone.as_slice(), coming);
        kept
    }

    /// Changes one row of a table, and all entries that belong to it. An index in which the row keeps its key is left as it is.
    /// Then each index of the table has room for `room` entries more, and for one more where an entry went. An `Err` changes
    /// no entry and takes no room away.
    ///
    /// # Errors
    ///
    /// Where there is no memory for it.
    pub fn change(&mut self, catalog: &Catalog, change: Change, room: u32) -> Result<Kept, NoMemory>
        requires change { IsTableAnd catalog.now change.table (IsChange catalog.now change (M.maps self.old) (M.limit self.old)) }
        requires room { room < 2 ^ 32 - 1 }
        ensures kept { IfOk result (λ kept. OfTable catalog.now change.table (IsKept catalog.now change kept)) }
        ensures set { OnOk result (OfTable catalog.now change.table (Sets catalog.now change.key change.before change.after (M.maps self.old) (M.maps self.new))) }
        ensures rows { OnOk result (SetsRow catalog.now change.table change.key change.after (M.maps self.old) (M.maps self.new)) }
        ensures room { IfOk result (λ kept. OfTable catalog.now change.table (KeepsRoom catalog.now room kept.gone (M.spare self.new))) }
        ensures spare { IfOk result (λ kept. TakesRoom (M.spare self.old) (M.spare self.new) kept.gone kept.made) }
        ensures err { OnErr result ((i : ℕ) → (M.maps self.new i ≡ M.maps self.old i) × (M.spare self.old i ≤ M.spare self.new i)) }
        ensures limit { M.limit self.new ≡ M.limit self.old }
    {
        catalog.number_law();
        let table = change.table;
        let ready = self.prepare(catalog, change)?;
        self.reserve(catalog, table, room + 1)?;
        Ok(self.apply(catalog, ready))
    }

    /// Takes a change back that `change` made with this catalog, where its row is still the one that is there. Takes no
    /// memory.
    pub fn take_back(&mut self, catalog: &Catalog, kept: Kept)
        requires { IsTableAnd catalog.now kept.change.table (CanTakeBack catalog.now kept (M.maps self.old) (M.spare self.old) (M.limit self.old)) }
        ensures set { OfTable catalog.now kept.change.table (Sets catalog.now kept.change.key kept.change.after kept.change.before (M.maps self.old) (M.maps self.new)) }
        ensures rows { SetsRow catalog.now kept.change.table kept.change.key kept.change.before (M.maps self.old) (M.maps self.new) }
        ensures spare { TakesRoom (M.spare self.old) (M.spare self.new) kept.made kept.gone }
        ensures limit { M.limit self.new ≡ M.limit self.old }
    {
        row_law();
        key_law();
        catalog.number_law();
        let Kept { gone, made, .. } = kept;
        exchange(&mut self.maps, made.as_slice(), gone);
    }

    /// The entries that a new index has for the rows of its table, in the order of the rows' keys. They are put in by `fill`.
    ///
    /// # Errors
    ///
    /// Where there is no memory for them.
    pub fn index_entries(
        &self,
        table: &TableDef,
        index: &IndexDef,
    ) -> Result<IndexEntryList, NoMemory>
        requires { AreRows table.now (M.maps self.now table.now.number) }
        ensures { IfOk result (AreIndexEntries table.now index.now (M.maps self.now table.now.number)) }
    {
        index_entries(self.alloc, &self.maps, table, index)
    }

    /// Fills a new index with the entries of the rows of its table, into room that was made. Takes no memory.
    pub fn fill(&mut self, index: &IndexDef, entries: IndexEntryList)
        requires { (t : TableDef) × CanFill index.now (M.maps self.old) (M.spare self.old index.now.number) (M.limit self.old) entries t }
        ensures index { (t : TableDef) (rows : Rows) → AreIndexEntries t index.now (M.maps self.old t.number) entries → HoldsTable rows t (M.maps self.old t.number) → HoldsIndex rows t index.now (M.maps self.new index.now.number) }
        ensures others { (n : ℕ) → n ≢ index.now.number → M.maps self.new n ≡ M.maps self.old n }
        ensures room { M.spare self.old index.now.number ≤ M.spare self.new index.now.number + length entries }
        ensures other_rooms { (n : ℕ) → n ≢ index.now.number → M.spare self.old n ≤ M.spare self.new n }
        ensures limit { M.limit self.new ≡ M.limit self.old }
    {
        row_law();
        key_law();
        put_all(&mut self.maps, index.number, entries);
    }

    /// What all entries of the maps count, each the bytes of its key and of its value, and 8. A sum that does not fit stands
    /// still at the end of a `u64`.
    pub fn used(&self) -> u64
        ensures { result ≡ min (used (M.maps self.now)) (2 ^ 64 - 1) }
    {
        self.maps.used()
    }

    /// The maps.
    pub fn maps(&self) -> &M
        ensures { result.now ≡ self.now }
    {
        &self.maps
    }

    /// The maps, to change entries that are no rows of tables.
    pub fn maps_mut(&mut self) -> &mut M
        ensures* writes_back { sem 𝓛 (Lends (the_row M.row M.SortedMaps) M.row self.entry result (λ w. w)) }
        ensures value { result.now ≡ self.old }
    {
        &mut self.maps
    }
}
