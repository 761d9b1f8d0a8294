//! The store.
ghost use Rattle.std.specs.Prelude.{◌≡◌, ℕ, List, [], IfOk};
ghost use Rattle.std.specs.FinMap.{empty};
ghost use Rattle.iv_types.specs.Maps.{Map};
ghost use Rattle.data_store.specs.Contents.{Contents, no_contents};
ghost use Rattle.data_store.specs.Held.{IsHeld, AreEmpty};

use ghost_rows::ViewRows;
use iv_types::{Bytes, Catalog, NoMemory, SortedMaps};
use spare_map::{Blank, SpareMap};
use std::alloc::Global;
use table_store::Tables;
use version_chain::{DeltaChains, RowChains};

/// The committed row of a key of which open transactions keep changes.
#[derive(Drop)]
pub struct Pending {
    /// How many kept changes there are of it.
    pub changes: u64,
    /// Its bytes, or none where no row is committed under the key.
    pub committed: Option<Bytes>,
}

impl Blank for Pending {
    fn blank(_alloc: Global) -> Self {
        Pending {
            changes: 0,
            committed: None,
        }
    }
}

/// What an engine stores.
#[derive(Drop)]
pub struct DataStore<M: SortedMaps> {
    pub alloc: Global,
    pub catalog: Catalog,
    /// The rows of tables in all their indexes, over the maps that have the stored view rows too.
    pub tables: Tables<M>,
    /// What open transactions have paid to stored view rows.
    pub views: ViewRows,
    /// Rows as they were before later commits.
    pub row_versions: RowChains,
    /// What later commits added to view rows.
    pub delta_versions: DeltaChains,
    /// The committed rows of keys that open transactions have changed.
    pub pending: SpareMap<Pending>,
}

impl<M: SortedMaps> DataStore<M> {
    /// A store that defines nothing, over maps that have no entry.
    ///
    /// # Errors
    ///
    /// Where there is no memory for it.
    pub fn new(alloc: Global, maps: M) -> Result<Self, NoMemory>
        requires { AreEmpty (M.maps maps) }
        ensures maps { IfOk result (λ store. store.tables ≡ maps) }
        ensures held { IfOk result (λ store. IsHeld store.catalog (M.maps store.tables) store.views no_contents) }
        ensures pruned { IfOk result (λ store. (store.row_versions.pruned ≡ 0) × (store.delta_versions.pruned ≡ 0)) }
        ensures past { IfOk result (λ store. (store.row_versions.versions ≡ []) × (store.delta_versions.versions ≡ []) × (store.pending.entries ≡ empty)) }
    {
        Ok(DataStore {
            alloc,
            catalog: Catalog::new(alloc),
            tables: Tables::new(alloc, maps)?,
            views: ViewRows::new(alloc)?,
            row_versions: RowChains::new(),
            delta_versions: DeltaChains::new(),
            pending: SpareMap::new(),
        })
    }
}
