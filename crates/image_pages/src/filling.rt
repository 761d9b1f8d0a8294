//! A store that is filled with what was read.
ghost use Rattle.std.specs.Prelude.{◌≡◌, ◌≤◌, ℕ, List, [], Some, IfOk, OnOk};
ghost use Rattle.std.specs.FinMap as map;
ghost use Rattle.iv_types.specs.Maps.{map_size};
ghost use Rattle.table_laws.specs.Place.{Place};
ghost use Rattle.table_store.specs.Lists.{map_at};
ghost use Rattle.iv_meaning.specs.Objects.{schema_of};
ghost use Rattle.txn_log.specs.Damaged.{EntryStands, in_texts, texts_found};
ghost use Rattle.txn_log.specs.Stored.{AllCreate};
ghost use Rattle.image_finding.specs.declared.image.FoundImage.{FoundImage};
ghost use Rattle.image_finding.specs.Faults.{IfBad, FindFaults};
ghost use Rattle.image_finding.specs.Headers.{as_header, StandsUpTo};
ghost use Rattle.image_finding.specs.Rules.{IsRefused};
ghost use Rattle.image_entries.specs.declared.stored.StoredEntry.{StoredEntry};
ghost use Rattle.image_entries.specs.Parts.{parts_found, KeysStand, SizesStand};
ghost use Rattle.image_pages.specs.Pages.{found_bytes, IsFilledWith, IsReadFrom, HasSomePages, HasPagesOf};

use data_store::DataStore;
use image_catalog::{put_texts, read_catalog};
use image_entries::{EntryMap, Part};
use image_finding::FindFault;
use image_rows::check_rows;
use image_store::fill_store;
use iv_types::{Catalog, NoMemory};
use std::alloc::Global;
use tree_maps::TreeMaps;

// A store that has these entries, with the texts that made its definitions.
fn filled(
    alloc: Global,
    catalog: Catalog,
    entries: EntryMap,
    parts: &[Part],
) -> Result<DataStore<TreeMaps>, NoMemory>
    requires stand { (p : Place) (s : StoredEntry) → map.get entries.entries p ≡ Some s → EntryStands (schema_of catalog) (p, s.value) }
    requires keys { KeysStand (parts_found parts.now) }
    requires sizes { SizesStand (parts_found parts.now) }
    requires made { AllCreate [] (texts_found (in_texts (parts_found parts.now)).1) (schema_of catalog) }
    ensures catalog { IfOk result (λ store. store.catalog ≡ catalog) }
    ensures filled { IfOk result (λ store. IsFilledWith (texts_found (in_texts (parts_found parts.now)).1) entries.entries store.catalog (map_at store.tables) store.views) }
    ensures pruned { IfOk result (λ store. (store.row_versions.pruned ≡ 0) × (store.delta_versions.pruned ≡ 0)) }
    ensures past { IfOk result (λ store. (store.row_versions.versions ≡ []) × (store.delta_versions.versions ≡ []) × (store.pending.entries ≡ map.empty)) }
{
    let mut store = fill_store(alloc, catalog, entries)?;
    put_texts(alloc, store.tables.maps_mut(), parts)?;
    Ok(store)
}

// The rows of these entries beside these definitions, if each of them stands.
fn with_rows(
    alloc: Global,
    catalog: Catalog,
    entries: EntryMap,
    parts: &[Part],
) -> Result<DataStore<TreeMaps>, FindFault>
    requires keys { KeysStand (parts_found parts.now) }
    requires sizes { SizesStand (parts_found parts.now) }
    requires made { AllCreate [] (texts_found (in_texts (parts_found parts.now)).1) (schema_of catalog) }
    ensures has { IfOk result (λ store. HasSomePages store) }
    ensures counts { IfOk result (λ store. map_size (map_at store.tables 0) ≤ found_bytes (parts_found parts.now)) }
    ensures pages { (c : List ℕ) (image : FoundImage) → IsReadFrom c image entries.entries parts.now → StandsUpTo 11 c (as_header image.header) → IfOk result (λ store. HasPagesOf c store) }
    ensures passes { (c : List ℕ) (image : FoundImage) → IsReadFrom c image entries.entries parts.now → StandsUpTo 11 c (as_header image.header) → OnOk result (StandsUpTo 12 c (as_header image.header)) }
    ensures refused { (c : List ℕ) (image : FoundImage) → IsReadFrom c image entries.entries parts.now → StandsUpTo 11 c (as_header image.header) → IfBad result (λ bad. IsRefused c bad) }
    ensures pruned { IfOk result (λ store. (store.row_versions.pruned ≡ 0) × (store.delta_versions.pruned ≡ 0)) }
    ensures past { IfOk result (λ store. (store.row_versions.versions ≡ []) × (store.delta_versions.versions ≡ []) × (store.pending.entries ≡ map.empty)) }
    ensures no_disk { (count : ℕ) → FindFaults result count count }
{
    match check_rows(alloc, &catalog, &entries) {
        Ok(()) => match filled(alloc, catalog, entries, parts) {
            Ok(store) => Ok(store),
            Err(NoMemory) => Err(FindFault::NoMemory),
        },
        Err(fault) => {
            catalog.let_go();
            Err(fault)
        }
    }
}

/// The entries of stored pages, with the parts of definitions among them, as a store, if the texts of the definitions make objects (the
/// rest of rule 11) and each other entry stands as a row of a table or of a view (rule 12).
pub(crate) fn store_of(
    alloc: Global,
    entries: EntryMap,
    parts: &[Part],
) -> Result<DataStore<TreeMaps>, FindFault>
    requires keys { KeysStand (parts_found parts.now) }
    requires sizes { SizesStand (parts_found parts.now) }
    ensures has { IfOk result (λ store. HasSomePages store) }
    ensures counts { IfOk result (λ store. map_size (map_at store.tables 0) ≤ found_bytes (parts_found parts.now)) }
    ensures pages { (c : List ℕ) (image : FoundImage) → IsReadFrom c image entries.entries parts.now → IfOk result (λ store. HasPagesOf c store) }
    ensures passes { (c : List ℕ) (image : FoundImage) → IsReadFrom c image entries.entries parts.now → OnOk result (StandsUpTo 12 c (as_header image.header)) }
    ensures refused { (c : List ℕ) (image : FoundImage) → IsReadFrom c image entries.entries parts.now → IfBad result (λ bad. IsRefused c bad) }
    ensures pruned { IfOk result (λ store. (store.row_versions.pruned ≡ 0) × (store.delta_versions.pruned ≡ 0)) }
    ensures past { IfOk result (λ store. (store.row_versions.versions ≡ []) × (store.delta_versions.versions ≡ []) × (store.pending.entries ≡ map.empty)) }
    ensures no_disk { (count : ℕ) → FindFaults result count count }
{
    match read_catalog(alloc, parts) {
        Ok(catalog) => with_rows(alloc, catalog, entries, parts),
        Err(fault) => Err(fault),
    }
}
