//! What a store has in an interval, and under a key.
ghost use Rattle.std.specs.Prelude.{◌≡◌, ◌-◌, ◌^◌, ◌<◌, List, min, IfOk};
ghost use Rattle.std.specs.FinMap.{get};
ghost use Rattle.iv_meaning.specs.Schema.{numbered};
ghost use Rattle.iv_meaning.specs.Database as meaning;
ghost use Rattle.iv_meaning.specs.Database.{Database};
ghost use Rattle.iv_meaning.specs.Sound.{IsTable};
ghost use Rattle.txn_machine.specs.Steps.{FindsIn};
ghost use Rattle.txn_machine.specs.Counts.{interval_size, fetch_size};
ghost use Rattle.data_store.specs.Contents.{Contents};
ghost use Rattle.data_store.specs.Held.{IsHeld};
ghost use Rattle.data_store.specs.Reading.{CanBeRead, CanFind, rows_size};

use crate::deltas::capped;
use crate::noted::noted_between;
use crate::shown::rows_shown;
use crate::store::DataStore;
use iv_types::{Definition, Interval, NoMemory, Row, RowList, SortedMaps, ViewDef};
use object_kinds::group_kinds;

// What a note counts, besides its interval and its rows.
const NOTE_BYTES: u128 = 64;

// The bytes of an interval's ends.
fn interval_len(interval: &Interval) -> u128
    ensures size { result ≡ interval_size interval.now }
    ensures most { result < 2 ^ 65 }
{
    let low = interval.low.as_slice().len() as u128;
    match &interval.high {
        Some(high) => low + high.as_slice().len() as u128,
        None => low,
    }
}

impl<M: SortedMaps> DataStore<M> {
    ghost use Rattle.iv_meaning.specs.Objects.{schema_of, view_tree};
    ghost use Rattle.iv_meaning.specs.Schema.{group_kinds};
    ghost use Rattle.data_store.specs.Shown.{AreGroupRows, Shows, noted_rows};
    ghost use Rattle.table_store.specs.Stored.{between};
    ghost use Rattle.std.specs.FinMap.{entries};

    // The rows of a view in an interval.
    fn shown(&self, view: &ViewDef, interval: &Interval) -> Result<RowList, NoMemory>
        requires { AreGroupRows (group_kinds (schema_of self.now.catalog) (view_tree view.now)) (M.maps self.now.tables view.now.number) }
        ensures { IfOk result (Shows (group_kinds (schema_of self.now.catalog) (view_tree view.now)) (between interval.now (entries (M.maps self.now.tables view.now.number)))) }
    {
        let kinds = group_kinds(self.alloc, &self.catalog, view)?;
        rows_shown(
            self.alloc,
            self.tables.maps(),
            view.number,
            kinds.as_slice(),
            interval,
        )
    }

    /// The rows of an index in an interval, in the order of its keys: those of a table by its number or by that of an index that
    /// CREATE INDEX made, and of a view those that stand for a group, each with the group's values, its count and its sums.
    ///
    /// # Errors
    ///
    /// Where there is no memory for them.
    pub fn found(&self, index: u32, interval: &Interval) -> Result<RowList, NoMemory>
        requires { CanFind self.now.catalog (M.maps self.now.tables) self.now.views index }
        ensures { IfOk result (λ rows. (c : Contents) (db : Database) → CanBeRead self.now.catalog (M.maps self.now.tables) self.now.views c
            → db.schema ≡ c.objects → db.rows ≡ c.rows → FindsIn db c.view (numbered c.objects index) index interval.now rows) }
    {
        self.catalog.number_law();
        let Some(definition) = self.catalog.get(index) else {
            unreachable!()
        };
        match definition {
            Definition::View(view) => self.shown(view, interval),
            _ => self.tables.read(&self.catalog, index, interval),
        }
    }

    // What the rows of a view in an interval count in a note.
    fn noted(&self, view: &ViewDef, interval: &Interval) -> Result<u64, NoMemory>
        requires { AreGroupRows (group_kinds (schema_of self.now.catalog) (view_tree view.now)) (M.maps self.now.tables view.now.number) }
        ensures { IfOk result (λ size. (rows : List meaning.Row) → Shows (group_kinds (schema_of self.now.catalog) (view_tree view.now)) (between interval.now (entries (M.maps self.now.tables view.now.number))) rows
            → size ≡ min (noted_rows (group_kinds (schema_of self.now.catalog) (view_tree view.now)) rows) (2 ^ 64 - 1)) }
    {
        let kinds = group_kinds(self.alloc, &self.catalog, view)?;
        noted_between(
            self.alloc,
            self.tables.maps(),
            view.number,
            kinds.as_slice(),
            interval,
        )
    }

    // What the rows of an index in an interval count in a note.
    fn rows_bytes(&self, index: u32, interval: &Interval) -> Result<u64, NoMemory>
        requires { CanFind self.now.catalog (M.maps self.now.tables) self.now.views index }
        ensures { IfOk result (λ size. (c : Contents) (db : Database) (rows : List meaning.Row) → CanBeRead self.now.catalog (M.maps self.now.tables) self.now.views c
            → db.schema ≡ c.objects → db.rows ≡ c.rows → FindsIn db c.view (numbered c.objects index) index interval.now rows → size ≡ min (rows_size c.objects index rows) (2 ^ 64 - 1)) }
    {
        self.catalog.number_law();
        let Some(definition) = self.catalog.get(index) else {
            unreachable!()
        };
        match definition {
            Definition::View(view) => self.noted(view, interval),
            _ => Ok(self.tables.noted_between(&self.catalog, index, interval)),
        }
    }

    /// What the rows that `found` gives of this index and interval count in a note of their reading: 64, the bytes of the
    /// interval's ends, and for each row its encoded bytes and 16. It keeps no row, and of a view one group at a time. A number
    /// that does not fit stands still at the end of a `u64`.
    ///
    /// # Errors
    ///
    /// Where there is no memory for a group.
    pub fn found_bytes(&self, index: u32, interval: &Interval) -> Result<u64, NoMemory>
        requires { CanFind self.now.catalog (M.maps self.now.tables) self.now.views index }
        ensures { IfOk result (λ size. (c : Contents) (db : Database) (rows : List meaning.Row) → CanBeRead self.now.catalog (M.maps self.now.tables) self.now.views c
            → db.schema ≡ c.objects → db.rows ≡ c.rows → FindsIn db c.view (numbered c.objects index) index interval.now rows → size ≡ min (fetch_size c.objects index interval.now rows) (2 ^ 64 - 1)) }
    {
        let rows = self.rows_bytes(index, interval)?;
        Ok(capped(NOTE_BYTES + interval_len(interval) + u128::from(rows)))
    }

    /// The row of a table under an encoded primary key, if one is there.
    ///
    /// # Errors
    ///
    /// Where there is no memory for it.
    pub fn row(&self, table: u32, key: &[u8]) -> Result<Option<Row>, NoMemory>
        requires { (c : Contents) × IsHeld self.now.catalog (M.maps self.now.tables) self.now.views c × IsTable c.objects table }
        ensures { IfOk result (λ row. (c : Contents) → IsHeld self.now.catalog (M.maps self.now.tables) self.now.views c → get c.rows (table, key.now) ≡ row) }
    {
        self.catalog.number_law();
        self.tables.row(&self.catalog, table, key)
    }
}
