//! A store that is filled from the entries of an image.
ghost use Rattle.std.specs.Prelude.{◌≡◌, ◌≢◌, ◌<◌, ℕ, List, [], true, false, None, Some, IsSome, is_some, IfOk, OnOk};
ghost use Rattle.std.specs.FinMap.{get, empty, insert, len};
ghost use Rattle.iv_meaning.specs.Objects.{schema_of};
ghost use Rattle.table_laws.specs.Place.{Place};
ghost use Rattle.table_store.specs.Stored as stored;
ghost use Rattle.table_store.specs.Lists.{map_at};
ghost use Rattle.query_laws.specs.Limited.{IsLimited};
ghost use Rattle.txn_log.specs.Damaged.{EntryStands};
ghost use Rattle.ghost_rows.specs.Rows.{no_rows};
ghost use Rattle.image_catalog.specs.Texts.{AreMade};
ghost use Rattle.image_entries.specs.declared.stored.StoredEntry.{StoredEntry};
ghost use Rattle.image_store.specs.Filled.{Entries, IsFilled, IsFilling};

use crate::groups::put_group;
use crate::rows::{decoded, put_row};
use data_store::DataStore;
use image_entries::{EntryMap, StoredEntry};
use iv_types::{Bytes, Catalog, Definition, NoMemory, SortedMaps};
use std::alloc::Global;
use std::mem;
use tree_maps::TreeMaps;

// Whether an object number is that of a table.
fn is_table(catalog: &Catalog, number: u32) -> bool
    ensures { result ≡ is_some (stored.table_of catalog.now number) }
{
    match catalog.get(number) {
        Some(Definition::Table(_)) => true,
        Some(Definition::Index(_)) => false,
        Some(Definition::View(_)) => false,
        None => false,
    }
}

// Puts the entry of a row into the store.
fn take_row<M: SortedMaps>(
    store: &mut DataStore<M>,
    table: u32,
    key: Bytes,
    entry: StoredEntry,
) -> Result<(), NoMemory>
    requires table { IsSome (stored.table_of store.old.catalog table) }
    requires stands { EntryStands (schema_of store.old.catalog) ((table, key), entry.value) }
    requires new { (done : Entries) × IsFilled done store.old.catalog (M.maps store.old.tables) store.old.views × (get done (table, key) ≡ None) }
    requires limited { IsLimited (schema_of store.old.catalog) }
    requires limit { M.limit store.old.tables ≡ None }
    ensures filled { OnOk result ((done : Entries) → IsFilled done store.old.catalog (M.maps store.old.tables) store.old.views → get done (table, key) ≡ None
        → IsFilled (insert done (table, key) entry) store.new.catalog (M.maps store.new.tables) store.new.views) }
    ensures limit { M.limit store.new.tables ≡ M.limit store.old.tables }
    ensures rest { store.new ≡ record store.old { tables = store.new.tables; views = store.new.views } }
{
    let row = decoded(store.alloc, &store.catalog, table, entry.value.as_slice())?;
    put_row(store, table, key, row)
}

// Puts the entry of a group into the store.
fn take_group<M: SortedMaps>(
    store: &mut DataStore<M>,
    view: u32,
    key: Bytes,
    entry: StoredEntry,
) -> Result<(), NoMemory>
    requires table { IsSome (stored.table_of store.old.catalog view) → ⊥ }
    requires some { view ≢ 0 }
    requires stands { EntryStands (schema_of store.old.catalog) ((view, key), entry.value) }
    requires new { (done : Entries) × IsFilled done store.old.catalog (M.maps store.old.tables) store.old.views × (get done (view, key) ≡ None) }
    requires limited { IsLimited (schema_of store.old.catalog) }
    requires limit { M.limit store.old.tables ≡ None }
    ensures filled { OnOk result ((done : Entries) → IsFilled done store.old.catalog (M.maps store.old.tables) store.old.views → get done (view, key) ≡ None
        → IsFilled (insert done (view, key) entry) store.new.catalog (M.maps store.new.tables) store.new.views) }
    ensures limit { M.limit store.new.tables ≡ M.limit store.old.tables }
    ensures rest { store.new ≡ record store.old { tables = store.new.tables; views = store.new.views } }
{
    put_group(store, view, key, entry.value)
}

// Puts an entry into the store: a row of a table or of a view. A part of a definition is passed over.
fn take_entry<M: SortedMaps>(
    store: &mut DataStore<M>,
    index: u32,
    key: Bytes,
    entry: StoredEntry,
) -> Result<(), NoMemory>
    requires stands { EntryStands (schema_of store.old.catalog) ((index, key), entry.value) }
    requires new { (done : Entries) × IsFilled done store.old.catalog (M.maps store.old.tables) store.old.views × (get done (index, key) ≡ None) }
    requires limited { IsLimited (schema_of store.old.catalog) }
    requires limit { M.limit store.old.tables ≡ None }
    ensures filled { OnOk result ((done : Entries) → IsFilled done store.old.catalog (M.maps store.old.tables) store.old.views → get done (index, key) ≡ None
        → IsFilled (insert done (index, key) entry) store.new.catalog (M.maps store.new.tables) store.new.views) }
    ensures limit { M.limit store.new.tables ≡ M.limit store.old.tables }
    ensures rest { store.new ≡ record store.old { tables = store.new.tables; views = store.new.views } }
{
    if index == 0 {
        return Ok(());
    }
    if is_table(&store.catalog, index) {
        return take_row(store, index, key, entry);
    }
    take_group(store, index, key, entry)
}

// Takes the first of the entries into the store, if there is one, and answers whether there was.
fn take_first<M: SortedMaps>(
    store: &mut DataStore<M>,
    left: &mut EntryMap,
) -> Result<bool, NoMemory>
    requires stand { (p : Place) (s : StoredEntry) → get left.old.entries p ≡ Some s → EntryStands (schema_of store.old.catalog) (p, s.value) }
    requires filling { (all : Entries) × IsFilling all left.old.entries store.old.catalog (M.maps store.old.tables) store.old.views }
    requires limited { IsLimited (schema_of store.old.catalog) }
    requires limit { M.limit store.old.tables ≡ None }
    ensures filling { OnOk result ((all : Entries) → IsFilling all left.old.entries store.old.catalog (M.maps store.old.tables) store.old.views
        → IsFilling all left.new.entries store.new.catalog (M.maps store.new.tables) store.new.views) }
    ensures more { IfOk result (λ more. more ≡ true → len left.new.entries < len left.old.entries) }
    ensures end { IfOk result (λ more. more ≡ false → (p : Place) → get left.new.entries p ≡ None) }
    ensures limit { M.limit store.new.tables ≡ M.limit store.old.tables }
    ensures rest { store.new ≡ record store.old { tables = store.new.tables; views = store.new.views } }
{
    let alloc = store.alloc;
    let Some((index, key)) = left.first_at(0, &[]) else {
        return Ok(false);
    };
    let key = Bytes::from_vec(Vec::from_slice(alloc, key)?);
    match left.take(alloc, index, key.as_slice()) {
        Some(entry) => {
            take_entry(store, index, key, entry)?;
            Ok(true)
        }
        None => unreachable!(),
    }
}

// Takes all entries into a store that has none.
fn take_all<M: SortedMaps>(store: &mut DataStore<M>, left: &mut EntryMap) -> Result<(), NoMemory>
    requires stand { (p : Place) (s : StoredEntry) → get left.old.entries p ≡ Some s → EntryStands (schema_of store.old.catalog) (p, s.value) }
    requires empty { IsFilled empty store.old.catalog (M.maps store.old.tables) store.old.views }
    requires limited { IsLimited (schema_of store.old.catalog) }
    requires limit { M.limit store.old.tables ≡ None }
    ensures filled { OnOk result (IsFilled left.old.entries store.new.catalog (M.maps store.new.tables) store.new.views) }
    ensures rest { store.new ≡ record store.old { tables = store.new.tables; views = store.new.views } }
{
    while take_first(store, left)? {}
    Ok(())
}

// A store that defines nothing and has no entry.
fn empty_store(alloc: Global) -> Result<DataStore<TreeMaps>, NoMemory>
    ensures maps { IfOk result (λ store. (index : ℕ) → map_at store.tables index ≡ empty) }
    ensures rows { IfOk result (λ store. store.views.rows ≡ no_rows) }
    ensures pruned { IfOk result (λ store. (store.row_versions.pruned ≡ 0) × (store.delta_versions.pruned ≡ 0)) }
    ensures past { IfOk result (λ store. (store.row_versions.versions ≡ []) × (store.delta_versions.versions ≡ []) × (store.pending.entries ≡ empty)) }
{
    let maps = TreeMaps::new(alloc)?;
    let mut store = DataStore::new(alloc, maps)?;
    store.views.forget_rows();
    Ok(store)
}

// The store with these definitions.
fn with_catalog(mut store: DataStore<TreeMaps>, catalog: Catalog) -> DataStore<TreeMaps>
    ensures { result ≡ record store { catalog = catalog } }
{
    mem::replace(&mut store.catalog, catalog).let_go();
    store
}

// The store with these entries.
fn filled(
    mut store: DataStore<TreeMaps>,
    mut left: EntryMap,
) -> Result<DataStore<TreeMaps>, NoMemory>
    requires stand { (p : Place) (s : StoredEntry) → get left.entries p ≡ Some s → EntryStands (schema_of store.catalog) (p, s.value) }
    requires empty { IsFilled empty store.catalog (map_at store.tables) store.views }
    requires limited { IsLimited (schema_of store.catalog) }
    ensures filled { IfOk result (λ full. IsFilled left.entries full.catalog (map_at full.tables) full.views) }
    ensures rest { IfOk result (λ full. full ≡ record store { tables = full.tables; views = full.views }) }
{
    match take_all(&mut store, &mut left) {
        Ok(()) => Ok(store),
        Err(NoMemory) => Err(NoMemory),
    }
}

/// A store with these definitions that has the entries of an image as rows of its tables, in all their indexes, and of its
/// views. Each entry stands, and the definitions are what binding made of some texts. No transaction is open in the store,
/// and it has no versions. A group whose numbers count no row is a ghost, and is to be cleaned.
///
/// # Errors
///
/// Where there is no memory for it.
pub fn fill_store(
    alloc: Global,
    catalog: Catalog,
    entries: EntryMap,
) -> Result<DataStore<TreeMaps>, NoMemory>
    requires stand { (p : Place) (s : StoredEntry) → get entries.entries p ≡ Some s → EntryStands (schema_of catalog) (p, s.value) }
    requires made { AreMade (schema_of catalog) }
    ensures catalog { IfOk result (λ store. store.catalog ≡ catalog) }
    ensures filled { IfOk result (λ store. IsFilled entries.entries catalog (map_at store.tables) store.views) }
    ensures pruned { IfOk result (λ store. (store.row_versions.pruned ≡ 0) × (store.delta_versions.pruned ≡ 0)) }
    ensures past { IfOk result (λ store. (store.row_versions.versions ≡ []) × (store.delta_versions.versions ≡ []) × (store.pending.entries ≡ empty)) }
{
    match empty_store(alloc) {
        Ok(store) => filled(with_catalog(store, catalog), entries),
        Err(NoMemory) => {
            catalog.let_go();
            Err(NoMemory)
        }
    }
}
