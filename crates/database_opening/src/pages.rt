//! A store over pages.
ghost use Rattle.std.specs.Prelude.{◌≡◌, ◌≤◌, ℕ, Some, IfOk, OnOk};
ghost use Rattle.iv_types.specs.Maps.{used};
ghost use Rattle.log_disk.specs.Placed.{data_limit};
ghost use Rattle.ordered_index.specs.Row.{least_pages, most_pages};
ghost use Rattle.ordered_index.specs.Tree.{Tree, map_of, limit_of};
ghost use Rattle.table_store.specs.Lists.{map_at};
ghost use Rattle.database_opening.specs.Pages.{IsSameOver};

use data_store::DataStore;
use iv_types::NoMemory;
use map_copying::copy_maps;
use ordered_index::PageMaps;
use std::alloc::Global;
use table_store::Tables;
use tree_maps::TreeMaps;

// The entries of maps in memory, in so many pages.
fn in_pages(alloc: Global, maps: &TreeMaps, pages: u32) -> Result<PageMaps, NoMemory>
    requires pages { (least_pages ≤ pages) × (pages ≤ most_pages) }
    requires within { used (map_at maps.now) ≤ data_limit pages }
    ensures copied { IfOk result (λ tree. (index : ℕ) → map_of tree index ≡ map_at maps.now index) }
    ensures limit { IfOk result (λ tree. limit_of tree ≡ Some (data_limit pages)) }
{
    let mut copy = PageMaps::new(alloc, pages)?;
    maps.maps_law();
    copy_maps(alloc, maps, &mut copy)?;
    Ok(copy)
}

/// The same store over so many pages.
///
/// # Errors
///
/// Where there is no memory for it.
pub(crate) fn on_pages(
    store: DataStore<TreeMaps>,
    pages: u32,
) -> Result<DataStore<PageMaps>, NoMemory>
    requires pages { (least_pages ≤ pages) × (pages ≤ most_pages) }
    requires within { used (map_at store.tables) ≤ data_limit pages }
    ensures same { IfOk result (IsSameOver store) }
    ensures limit { IfOk result (λ new. limit_of new.tables ≡ Some (data_limit pages)) }
{
    let maps = in_pages(store.alloc, store.tables.maps(), pages)?;
    Ok(DataStore {
        alloc: store.alloc,
        tables: Tables::new(store.alloc, maps)?,
        catalog: store.catalog,
        views: store.views,
        row_versions: store.row_versions,
        delta_versions: store.delta_versions,
        pending: store.pending,
    })
}
