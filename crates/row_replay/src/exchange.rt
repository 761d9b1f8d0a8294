//! A row or none in place of another.
ghost use Rattle.std.specs.Prelude.{◌≡◌, true, false, None, IfOk, IfSome, OnOk};
ghost use Rattle.std.specs.Option.{option_copied};
ghost use Rattle.std.specs.FinMap.{get};
ghost use Rattle.iv_types.specs.Encoding.{kinds_of, FitAll};
ghost use Rattle.iv_meaning.specs.Objects.{schema_of};
ghost use Rattle.query_laws.specs.Limited.{IsLimited};
ghost use Rattle.table_laws.specs.Table.{write};
ghost use Rattle.table_store.specs.Stored.{IsTableAnd, OfTable, stored};
ghost use Rattle.data_store.specs.Contents.{Contents};
ghost use Rattle.data_store.specs.Held.{IsHeld};
ghost use Rattle.row_replay.specs.Exchanged.{AreRowsUnder, with_rows};

use data_store::DataStore;
use iv_types::{Bytes, Change, Kept, NoMemory, Row, SortedMaps, TableDef, copied_perhaps};
use row_codec::{encode_row, row_law};
use std::alloc::Global;
use table_store::table_of;

// Whether these are the bytes of the row, or there are none and no row.
fn are_bytes_of(
    alloc: Global,
    of: &TableDef,
    bytes: Option<&[u8]>,
    row: &Option<Row>,
) -> Result<bool, NoMemory>
    requires { IfSome row.now (FitAll (kinds_of of.now)) }
    ensures same { IfOk result (λ same. same ≡ true → option_copied bytes.entry ≡ stored of.now row.now) }
    ensures other { IfOk result (λ same. same ≡ false → option_copied bytes.entry ≡ stored of.now row.now → ⊥) }
{
    let Some(row) = row else {
        return Ok(bytes.is_none());
    };
    let Some(bytes) = bytes else {
        return Ok(false);
    };
    let own = encode_row(alloc, of, row)?;
    Ok(own.as_slice() == bytes)
}

// Whether this row, or none, stands under a key.
fn stands<M: SortedMaps>(
    store: &DataStore<M>,
    table: u32,
    key: &Bytes,
    row: &Option<Row>,
) -> Result<bool, NoMemory>
    requires held { (c : Contents) × IsHeld store.now.catalog (M.maps store.now.tables) store.now.views c }
    requires fits { IsTableAnd store.now.catalog table (λ t. IfSome row.now (FitAll (kinds_of t))) }
    ensures stands { IfOk result (λ stands. stands ≡ true → (c : Contents) → IsHeld store.now.catalog (M.maps store.now.tables) store.now.views c → get c.rows (table, key.now) ≡ row.now) }
    ensures other { IfOk result (λ stands. stands ≡ false → (c : Contents) → IsHeld store.now.catalog (M.maps store.now.tables) store.now.views c → get c.rows (table, key.now) ≡ row.now → ⊥) }
{
    row_law();
    store.catalog.number_law();
    are_bytes_of(
        store.alloc,
        table_of(&store.catalog, table),
        store.tables.maps().get(table, key.as_slice()),
        row,
    )
}

// The change of a row or none to another.
fn change_of(
    alloc: Global,
    table: u32,
    key: &Bytes,
    from: &Option<Row>,
    to: &Option<Row>,
) -> Result<Change, NoMemory>
    ensures { IfOk result (λ change. change ≡ record { table = table; key = key.now; before = from.now; after = to.now }) }
{
    let before = copied_perhaps(alloc, from.as_ref())?;
    let after = copied_perhaps(alloc, to.as_ref())?;
    let key = key.copied(alloc)?;
    Ok(Change {
        table,
        key,
        before,
        after,
    })
}

// What is kept of a change is let go here alone, which is costly to prove.
fn let_go(kept: Kept) {
    let _ = kept;
}

// Puts a row or none in place of another that stands under a key.
fn put<M: SortedMaps>(
    store: &mut DataStore<M>,
    table: u32,
    key: &Bytes,
    from: &Option<Row>,
    to: &Option<Row>,
) -> Result<(), NoMemory>
    requires stands { (c : Contents) × IsHeld store.old.catalog (M.maps store.old.tables) store.old.views c × (get c.rows (table, key.now) ≡ from.now) }
    requires under { IsTableAnd store.old.catalog table (AreRowsUnder key.now from.now to.now) }
    requires differ { from.now ≡ to.now → ⊥ }
    requires limited { IsLimited (schema_of store.old.catalog) }
    requires limit { M.limit store.old.tables ≡ None }
    ensures put { OnOk result ((c : Contents) → IsHeld store.old.catalog (M.maps store.old.tables) store.old.views c
        → IsHeld store.new.catalog (M.maps store.new.tables) store.new.views (with_rows c (write c.rows (table, key.now) to.now))) }
    ensures limit { M.limit store.new.tables ≡ M.limit store.old.tables }
    ensures rest { store.new ≡ record store.old { tables = store.new.tables } }
{
    store.catalog.number_law();
    let change = change_of(store.alloc, table, key, from, to)?;
    let kept = store.tables.change(&store.catalog, change, 0)?;
    let_go(kept);
    Ok(())
}

/// Puts a row or none in place of another, if that stands under the key. Answers whether it does.
///
/// # Errors
///
/// Where there is no memory for it.
pub(crate) fn exchange<M: SortedMaps>(
    store: &mut DataStore<M>,
    table: u32,
    key: &Bytes,
    from: &Option<Row>,
    to: &Option<Row>,
) -> Result<bool, NoMemory>
    requires held { (c : Contents) × IsHeld store.old.catalog (M.maps store.old.tables) store.old.views c }
    requires under { IsTableAnd store.old.catalog table (AreRowsUnder key.now from.now to.now) }
    requires limited { IsLimited (schema_of store.old.catalog) }
    requires limit { M.limit store.old.tables ≡ None }
    ensures stands { IfOk result (λ stands. stands ≡ true → (c : Contents) → IsHeld store.old.catalog (M.maps store.old.tables) store.old.views c
        → (get c.rows (table, key.now) ≡ from.now) × IsHeld store.new.catalog (M.maps store.new.tables) store.new.views (with_rows c (write c.rows (table, key.now) to.now))) }
    ensures other { IfOk result (λ stands. stands ≡ false → (c : Contents) → IsHeld store.old.catalog (M.maps store.old.tables) store.old.views c → get c.rows (table, key.now) ≡ from.now → ⊥) }
    ensures untouched { IfOk result (λ stands. stands ≡ false → store.new ≡ store.old) }
    ensures limit { M.limit store.new.tables ≡ M.limit store.old.tables }
    ensures rest { store.new ≡ record store.old { tables = store.new.tables } }
{
    store.catalog.number_law();
    if !stands(store, table, key, from)? {
        return Ok(false);
    }
    if stands(store, table, key, to)? {
        return Ok(true);
    }
    put(store, table, key, from, to)?;
    Ok(true)
}
