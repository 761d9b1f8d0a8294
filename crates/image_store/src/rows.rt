//! Rows of tables.
ghost use Rattle.std.specs.Prelude.{◌≡◌, ℕ, List, None, IfOk, OnOk};
ghost use Rattle.iv_types.specs.declared.value.Value.{Value};
ghost use Rattle.iv_types.specs.Encoding.{kinds_of, FitAll, row_bytes};
ghost use Rattle.iv_meaning.specs.Objects.{schema_of};
ghost use Rattle.query_laws.specs.Limited.{IsLimited};
ghost use Rattle.table_store.specs.Stored.{IsTableAnd, OfTable};
ghost use Rattle.data_store.specs.Contents.{Contents};
ghost use Rattle.data_store.specs.Held.{IsHeld};
ghost use Rattle.image_store.specs.Filled.{IsNewRow, with_row};

use data_store::DataStore;
use iv_types::{Bytes, Catalog, Change, Kept, NoMemory, Row, SortedMaps};
use std::alloc::Global;
use table_store::{row_of, table_of};

/// The row of a table whose bytes these are.
///
/// # Errors
///
/// Where there is no memory for it.
pub(crate) fn decoded(
    alloc: Global,
    catalog: &Catalog,
    table: u32,
    value: &[u8],
) -> Result<Row, NoMemory>
    requires { IsTableAnd catalog.now table (λ t. (row : List Value) × FitAll (kinds_of t) row × (value.now ≡ row_bytes (kinds_of t) row)) }
    ensures { IfOk result (λ row. OfTable catalog.now table (λ t. FitAll (kinds_of t) row × (value.now ≡ row_bytes (kinds_of t) row))) }
{
    row_of(alloc, table_of(catalog, table), value)
}

// What is kept of a change is let go here alone, which is costly to prove.
fn let_go(kept: Kept) {
    let _ = kept;
}

/// Puts a row of a table under its key, where none is, into all indexes of the table.
///
/// # Errors
///
/// Where there is no memory for it.
pub(crate) fn put_row<M: SortedMaps>(
    store: &mut DataStore<M>,
    table: u32,
    key: Bytes,
    row: Row,
) -> Result<(), NoMemory>
    requires new { (c : Contents) × IsNewRow store.old.catalog (M.maps store.old.tables) store.old.views (table, key) row c }
    requires limited { IsLimited (schema_of store.old.catalog) }
    requires limit { M.limit store.old.tables ≡ None }
    ensures put { OnOk result ((c : Contents) → IsNewRow store.old.catalog (M.maps store.old.tables) store.old.views (table, key) row c
        → IsHeld store.new.catalog (M.maps store.new.tables) store.new.views (with_row c (table, key) row)) }
    ensures limit { M.limit store.new.tables ≡ M.limit store.old.tables }
    ensures rest { store.new ≡ record store.old { tables = store.new.tables } }
{
    store.catalog.number_law();
    let change = Change {
        table,
        key,
        before: None,
        after: Some(row),
    };
    let kept = store.tables.change(&store.catalog, change, 0)?;
    let_go(kept);
    Ok(())
}
