//! Rows of views.
ghost use Rattle.std.specs.Prelude.{◌≡◌, ◌≤◌, ◌∷◌, ℕ, ℤ, pos, List, length, FitsSigned, None, Some, OnOk};
ghost use Rattle.std.specs.Int.{w128};
ghost use Rattle.iv_types.specs.Maps.{Map, CanHold};
ghost use Rattle.iv_meaning.specs.Objects.{schema_of};
ghost use Rattle.query_laws.specs.Limited.{IsLimited};
ghost use Rattle.ghost_rows.specs.Numbers.{numbers_bytes};
ghost use Rattle.ghost_rows.specs.State.{stored_at, StoresOnlyAt};
ghost use Rattle.ghost_rows.specs.Ghosts.{IsCandidate, StayListed};
ghost use Rattle.data_store.specs.Contents.{Contents};
ghost use Rattle.data_store.specs.Held.{IsHeld};
ghost use Rattle.image_store.specs.Filled.{IsNewGroup, with_group};

use data_store::DataStore;
use group_replay::list_ghost;
use iv_types::{Bytes, NoMemory, SortedMaps};

// Puts a value into the index of a view, under a group that has none.
fn put_value<M: SortedMaps>(
    maps: &mut M,
    view: u32,
    group: Bytes,
    value: Bytes,
) -> Result<(), NoMemory>
    requires absent { stored_at (M.maps maps.old) (view, group) ≡ None }
    requires held { CanHold view group value }
    requires limit { M.limit maps.old ≡ None }
    ensures stored { OnOk result (stored_at (M.maps maps.new) (view, group) ≡ Some value) }
    ensures others { StoresOnlyAt (view, group) (M.maps maps.old) (M.maps maps.new) }
    ensures limit { M.limit maps.new ≡ M.limit maps.old }
{
    maps.reserve(view, 1)?;
    maps.insert(view, group, value);
    Ok(())
}

/// Puts the numbers of a group into the index of its view, where none are. Where they count no row they are those of a
/// ghost, and the group is to be cleaned.
///
/// # Errors
///
/// Where there is no memory for it.
pub(crate) fn put_group<M: SortedMaps>(
    store: &mut DataStore<M>,
    view: u32,
    group: Bytes,
    value: Bytes,
) -> Result<(), NoMemory>
    requires new { (c : Contents) × (numbers : List ℤ) × IsNewGroup store.old.catalog (M.maps store.old.tables) store.old.views (view, group) numbers c × (value ≡ numbers_bytes numbers) }
    requires limited { IsLimited (schema_of store.old.catalog) }
    requires limit { M.limit store.old.tables ≡ None }
    ensures put { OnOk result ((c : Contents) (numbers : List ℤ) → IsNewGroup store.old.catalog (M.maps store.old.tables) store.old.views (view, group) numbers c → value ≡ numbers_bytes numbers
        → IsHeld store.new.catalog (M.maps store.new.tables) store.new.views (with_group c (view, group) numbers)) }
    ensures rows { store.new.views.rows ≡ store.old.views.rows }
    ensures limit { M.limit store.new.tables ≡ M.limit store.old.tables }
    ensures rest { store.new ≡ record store.old { tables = store.new.tables; views = store.new.views } }
{
    list_ghost(&mut store.views, view, group.as_slice(), value.as_slice())?;
    put_value(store.tables.maps_mut(), view, group, value)
}
