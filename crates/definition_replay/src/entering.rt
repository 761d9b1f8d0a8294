//! An object begins.
ghost use Rattle.std.specs.Prelude.{◌≡◌, ◌≢◌, ◌++◌, ◌∷◌, [], ℕ, length, true, false, None, IfOk, OnOk};
ghost use Rattle.std.specs.FinMap as map;
ghost use Rattle.iv_types.specs.Definitions.{CanAdd};
ghost use Rattle.iv_types.specs.Maps.{CanHold, IsWithin, used, with_map};
ghost use Rattle.iv_types.specs.declared.refusal.Refusal.TheVariants as refused;
ghost use Rattle.iv_meaning.specs.Objects.{object_of};
ghost use Rattle.table_store.specs.Filling.{CanPutAll, filled};
ghost use Rattle.ghost_rows.specs.Rows.{no_rows};
ghost use Rattle.data_store.specs.Contents.{Contents};
ghost use Rattle.data_store.specs.Held.{IsHeld};
ghost use Rattle.data_defining.specs.Defining.{CanDefine, with_object};
ghost use Rattle.definition_replay.specs.Replaying.{CanBegin, IsRefusedBeside, IsBegun};

use data_defining::first_entries;
use data_store::DataStore;
use iv_types::{Bytes, Definition, IndexEntry, IndexEntryList, NoMemory, Refusal, SortedMaps};
use row_codec::{key_law, row_law};

// Adds an entry, for which it makes room.
fn put<M: SortedMaps>(maps: &mut M, index: u32, key: Bytes, value: Bytes) -> Result<(), NoMemory>
    requires absent { map.get (M.maps maps.old index) key ≡ None }
    requires held { CanHold index key value }
    requires within { IsWithin (M.limit maps.old) (used (with_map (M.maps maps.old) index (map.insert (M.maps maps.old index) key value))) }
    ensures entry { OnOk result (M.maps maps.new index ≡ map.insert (M.maps maps.old index) key value) }
    ensures others { OnOk result ((n : ℕ) → n ≢ index → M.maps maps.new n ≡ M.maps maps.old n) }
    ensures limit { M.limit maps.new ≡ M.limit maps.old }
{
    maps.reserve(index, 1)?;
    maps.insert(index, key, value);
    Ok(())
}

// Adds entries, however many they are, each into room that is made for it.
fn put_each<M: SortedMaps>(
    maps: &mut M,
    index: u32,
    entries: IndexEntryList,
) -> Result<(), NoMemory>
    requires { CanPutAll index (M.maps maps.old) (length entries) (M.limit maps.old) entries }
    ensures entries { OnOk result (M.maps maps.new index ≡ filled (M.maps maps.old index) entries) }
    ensures others { OnOk result ((n : ℕ) → n ≢ index → M.maps maps.new n ≡ M.maps maps.old n) }
    ensures limit { M.limit maps.new ≡ M.limit maps.old }
{
    let mut left = entries.into_vec();
    while let Some(IndexEntry { key, value, .. }) = left.pop() {
        put(maps, index, key, value)?;
    }
    Ok(())
}

// Defines an object that begins with these entries.
fn enter<M: SortedMaps>(
    store: &mut DataStore<M>,
    definition: Definition,
    first: IndexEntryList,
) -> Result<(), NoMemory>
    requires adds { CanAdd store.old.catalog definition }
    requires begins { (c : Contents) × CanDefine store.old.catalog (M.maps store.old.tables) store.old.views definition first c }
    requires closed { store.old.views.rows ≡ no_rows }
    requires limit { M.limit store.old.tables ≡ None }
    ensures defined { OnOk result (store.new.catalog ≡ store.old.catalog ++ definition ∷ []) }
    ensures held { OnOk result ((c : Contents) → CanDefine store.old.catalog (M.maps store.old.tables) store.old.views definition first c
        → IsHeld store.new.catalog (M.maps store.new.tables) store.new.views (with_object c (object_of definition))) }
    ensures limit { M.limit store.new.tables ≡ M.limit store.old.tables }
    ensures rest { store.new ≡ record store.old { catalog = store.new.catalog; tables = store.new.tables } }
{
    row_law();
    key_law();
    let number = definition.number();
    store.catalog.add(definition)?;
    put_each(store.tables.maps_mut(), number, first)
}

// What is answered where the entries that an object begins with can't be made: that it is not accepted, unless there was no memory
// for them.
fn not_accepted(refusal: Refusal) -> Result<bool, NoMemory>
    ensures { IfOk result (λ accepted. (accepted ≡ false) × (refusal ≢ refused.NoMemory)) }
{
    match refusal {
        Refusal::NoMemory => Err(NoMemory),
        refusal => {
            refusal.let_go();
            Ok(false)
        }
    }
}

/// Defines an object, if it is accepted beside the rows that stand there. Answers whether it is.
///
/// # Errors
///
/// Where there is no memory for it.
pub(crate) fn begin<M: SortedMaps>(
    store: &mut DataStore<M>,
    definition: Definition,
) -> Result<bool, NoMemory>
    requires adds { CanAdd store.old.catalog definition }
    requires begins { (c : Contents) × CanBegin store.old.catalog (M.maps store.old.tables) store.old.views (object_of definition) c }
    requires closed { store.old.views.rows ≡ no_rows }
    requires limit { M.limit store.old.tables ≡ None }
    ensures begun { IfOk result (λ accepted. accepted ≡ true → IsBegun store.old.catalog store.new.catalog (M.maps store.old.tables) (M.maps store.new.tables) store.old.views definition) }
    ensures other { IfOk result (λ accepted. accepted ≡ false → (c : Contents) → CanBegin store.old.catalog (M.maps store.old.tables) store.old.views (object_of definition) c → IsRefusedBeside c (object_of definition)) }
    ensures untouched { IfOk result (λ accepted. accepted ≡ false → store.new ≡ store.old) }
    ensures limit { M.limit store.new.tables ≡ M.limit store.old.tables }
    ensures rest { store.new ≡ record store.old { catalog = store.new.catalog; tables = store.new.tables } }
{
    match first_entries(store, &definition) {
        Ok(first) => {
            enter(store, definition, first)?;
            Ok(true)
        }
        Err(refusal) => {
            definition.let_go();
            not_accepted(refusal)
        }
    }
}
