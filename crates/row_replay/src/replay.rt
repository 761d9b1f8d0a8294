//! Changes of rows.
ghost use Rattle.std.specs.Prelude.{◌≡◌, true, false, None, IfOk, OnOk};
ghost use Rattle.std.specs.FinMap.{get};
ghost use Rattle.iv_meaning.specs.Objects.{schema_of};
ghost use Rattle.query_laws.specs.Limited.{IsLimited};
ghost use Rattle.txn_machine.specs.RowChanges.{row_change};
ghost use Rattle.txn_log.specs.Fitting.{IsChange};
ghost use Rattle.txn_log.specs.Replay.{Wrote, rows_with, rows_without};
ghost use Rattle.data_store.specs.Contents.{Contents};
ghost use Rattle.data_store.specs.Held.{IsHeld};
ghost use Rattle.row_replay.specs.Exchanged.{with_rows};

use crate::exchange::exchange;
use data_store::DataStore;
use iv_types::{Change, NoMemory, SortedMaps};

/// Sets the row behind a change, if the one that stands there is the one before it. Answers whether it is.
///
/// # Errors
///
/// Where there is no memory for it.
pub fn set_row<M: SortedMaps>(store: &mut DataStore<M>, change: &Change) -> Result<bool, NoMemory>
    requires held { (c : Contents) × IsHeld store.old.catalog (M.maps store.old.tables) store.old.views c }
    requires change { IsChange (schema_of store.old.catalog) (row_change change.now) }
    requires limited { IsLimited (schema_of store.old.catalog) }
    requires limit { M.limit store.old.tables ≡ None }
    ensures stands { IfOk result (λ stands. stands ≡ true → (c : Contents) → IsHeld store.old.catalog (M.maps store.old.tables) store.old.views c
        → (change.now.before ≡ get c.rows (change.now.table, change.now.key)) × IsHeld store.new.catalog (M.maps store.new.tables) store.new.views (with_rows c (rows_with (Wrote (row_change change.now)) c.rows))) }
    ensures other { IfOk result (λ stands. stands ≡ false → (c : Contents) → IsHeld store.old.catalog (M.maps store.old.tables) store.old.views c
        → change.now.before ≡ get c.rows (change.now.table, change.now.key) → ⊥) }
    ensures untouched { IfOk result (λ stands. stands ≡ false → store.new ≡ store.old) }
    ensures limit { M.limit store.new.tables ≡ M.limit store.old.tables }
    ensures rest { store.new ≡ record store.old { tables = store.new.tables } }
{
    store.catalog.number_law();
    exchange(
        store,
        change.table,
        &change.key,
        &change.before,
        &change.after,
    )
}

/// Sets the row behind a change, whatever stands there.
///
/// # Errors
///
/// Where there is no memory for it.
pub fn put_row<M: SortedMaps>(store: &mut DataStore<M>, change: &Change) -> Result<(), NoMemory>
    requires held { (c : Contents) × IsHeld store.old.catalog (M.maps store.old.tables) store.old.views c }
    requires change { IsChange (schema_of store.old.catalog) (row_change change.now) }
    requires limited { IsLimited (schema_of store.old.catalog) }
    requires limit { M.limit store.old.tables ≡ None }
    ensures put { OnOk result ((c : Contents) → IsHeld store.old.catalog (M.maps store.old.tables) store.old.views c
        → IsHeld store.new.catalog (M.maps store.new.tables) store.new.views (with_rows c (rows_with (Wrote (row_change change.now)) c.rows))) }
    ensures limit { M.limit store.new.tables ≡ M.limit store.old.tables }
    ensures rest { store.new ≡ record store.old { tables = store.new.tables } }
{
    store.catalog.number_law();
    let there = store.row(change.table, change.key.as_slice())?;
    exchange(store, change.table, &change.key, &there, &change.after)?;
    Ok(())
}

/// Sets the row before a change, if the one that stands there is the one behind it. Answers whether it is.
///
/// # Errors
///
/// Where there is no memory for it.
pub fn set_row_back<M: SortedMaps>(
    store: &mut DataStore<M>,
    change: &Change,
) -> Result<bool, NoMemory>
    requires held { (c : Contents) × IsHeld store.old.catalog (M.maps store.old.tables) store.old.views c }
    requires change { IsChange (schema_of store.old.catalog) (row_change change.now) }
    requires limited { IsLimited (schema_of store.old.catalog) }
    requires limit { M.limit store.old.tables ≡ None }
    ensures stands { IfOk result (λ stands. stands ≡ true → (c : Contents) → IsHeld store.old.catalog (M.maps store.old.tables) store.old.views c
        → (get c.rows (change.now.table, change.now.key) ≡ change.now.after) × IsHeld store.new.catalog (M.maps store.new.tables) store.new.views (with_rows c (rows_without (Wrote (row_change change.now)) c.rows))) }
    ensures other { IfOk result (λ stands. stands ≡ false → (c : Contents) → IsHeld store.old.catalog (M.maps store.old.tables) store.old.views c
        → get c.rows (change.now.table, change.now.key) ≡ change.now.after → ⊥) }
    ensures untouched { IfOk result (λ stands. stands ≡ false → store.new ≡ store.old) }
    ensures limit { M.limit store.new.tables ≡ M.limit store.old.tables }
    ensures rest { store.new ≡ record store.old { tables = store.new.tables } }
{
    store.catalog.number_law();
    exchange(
        store,
        change.table,
        &change.key,
        &change.after,
        &change.before,
    )
}
