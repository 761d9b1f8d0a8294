//! Rows of zeros, made and removed.
ghost use Rattle.std.specs.Prelude.{◌≡◌, ◌↔◌, suc, false, length, None, Some, IsTrue, IfOk};
ghost use Rattle.std.specs.FinMap.{get};
ghost use Rattle.table_laws.specs.Table.{write};
ghost use Rattle.iv_meaning.specs.Objects.{schema_of};
ghost use Rattle.query_laws.specs.Limited.{IsLimited};
ghost use Rattle.txn_machine.specs.Stored.{zeros};
ghost use Rattle.txn_log.specs.Fitting.{IsGroup};
ghost use Rattle.data_store.specs.Contents.{Contents};
ghost use Rattle.group_replay.specs.Closed.{IsClosed, with_view, HasZeros};

use crate::numbers::are_zeros;
use data_changes::{make_ghost, remove_ghost};
use data_store::DataStore;
use iv_types::{NoMemory, SortedMaps};

/// Makes a row of zeros, its count and so many sums, under a group of a view, and answers whether there was none. Where a
/// row stands there, nothing is changed.
///
/// # Errors
///
/// Where there is no memory for it. What the store has is not told then.
pub fn make_row<M: SortedMaps>(
    store: &mut DataStore<M>,
    view: u32,
    group: &[u8],
    sums: usize,
) -> Result<bool, NoMemory>
    requires closed { (c : Contents) × IsClosed store.old.catalog (M.maps store.old.tables) store.old.views c }
    requires limited { IsLimited (schema_of store.old.catalog) }
    requires limit { M.limit store.old.tables ≡ None }
    requires group { (g : IsGroup (schema_of store.old.catalog) (view, group.now)) × (sums ≡ length g.of.sums) }
    ensures absent { IfOk result (λ made. (c : Contents) → IsClosed store.old.catalog (M.maps store.old.tables) store.old.views c → IsTrue made ↔ (get c.view (view, group.now) ≡ None)) }
    ensures made { IfOk result (λ made. IsTrue made → (c : Contents) → IsClosed store.old.catalog (M.maps store.old.tables) store.old.views c
        → IsClosed store.new.catalog (M.maps store.new.tables) store.new.views (with_view c (write c.view (view, group.now) (Some (zeros (suc sums)))))) }
    ensures untouched { IfOk result (λ made. made ≡ false → store.new ≡ store.old) }
    ensures limit { M.limit store.new.tables ≡ M.limit store.old.tables }
    ensures rest { store.new ≡ record store.old { tables = store.new.tables; views = store.new.views } }
{
    if store.tables.maps().get(view, group).is_some() {
        return Ok(false);
    }
    make_ghost(store, view, group, sums as u32, 0)?;
    Ok(true)
}

// Whether a row of zeros is stored under a group of a view.
fn has_zeros<M: SortedMaps>(store: &DataStore<M>, view: u32, group: &[u8]) -> bool
    requires closed { (c : Contents) × IsClosed store.now.catalog (M.maps store.now.tables) store.now.views c }
    requires group { IsGroup (schema_of store.now.catalog) (view, group.now) }
    ensures { (c : Contents) → IsClosed store.now.catalog (M.maps store.now.tables) store.now.views c → IsTrue result ↔ HasZeros c.view (view, group.now) }
{
    match store.tables.maps().get(view, group) {
        Some(stored) => are_zeros(stored),
        None => false,
    }
}

/// Removes the row of a group of a view, if one stands there and its count and its sums are 0, and answers whether it did.
/// Else nothing is changed. Takes no memory.
pub fn remove_row<M: SortedMaps>(store: &mut DataStore<M>, view: u32, group: &[u8]) -> bool
    requires closed { (c : Contents) × IsClosed store.old.catalog (M.maps store.old.tables) store.old.views c }
    requires group { IsGroup (schema_of store.old.catalog) (view, group.now) }
    ensures zeros { (c : Contents) → IsClosed store.old.catalog (M.maps store.old.tables) store.old.views c → IsTrue result ↔ HasZeros c.view (view, group.now) }
    ensures removed { IsTrue result → (c : Contents) → IsClosed store.old.catalog (M.maps store.old.tables) store.old.views c
        → IsClosed store.new.catalog (M.maps store.new.tables) store.new.views (with_view c (write c.view (view, group.now) None)) }
    ensures untouched { result ≡ false → store.new ≡ store.old }
    ensures limit { M.limit store.new.tables ≡ M.limit store.old.tables }
    ensures rest { store.new ≡ record store.old { tables = store.new.tables; views = store.new.views } }
{
    if !has_zeros(store, view, group) {
        return false;
    }
    remove_ghost(store, view, group);
    true
}
