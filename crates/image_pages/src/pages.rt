//! The stored pages.
ghost use Rattle.std.specs.Prelude.{◌≡◌, ◌+◌, ◌-◌, ◌*◌, ◌^◌, ◌≤◌, ℕ, List, [], min, IfOk, OnOk};
ghost use Rattle.std.specs.FinMap as map;
ghost use Rattle.iv_types.specs.Maps.{map_size};
ghost use Rattle.table_store.specs.Lists.{map_at};
ghost use Rattle.image_finding.specs.Faults.{IfBad, FindFaults};
ghost use Rattle.image_finding.specs.Headers.{as_header, StandsUpTo};
ghost use Rattle.image_finding.specs.Images.{HasImage};
ghost use Rattle.image_finding.specs.Reads.{IsOnlyRead};
ghost use Rattle.image_finding.specs.Rules.{IsRefused};
ghost use Rattle.image_finding.specs.declared.image.FoundImage.{FoundImage};
ghost use Rattle.image_entries.specs.Entries.{Gathers, found_entries};
ghost use Rattle.image_pages.specs.Pages.{HasSomePages, HasPagesOf, CountsTextsOf};

use crate::filling::store_of;
use crate::texts::parts_bytes;
use data_store::DataStore;
use disk_io::Disk;
use image_entries::{EntryMap, gather_entries, read_parts};
use image_finding::{FindFault, FoundImage};
use std::alloc::Global;
use tree_maps::TreeMaps;

/// What the stored pages of an image have.
#[derive(Drop)]
pub struct StoredPages {
    /// Their rows and definitions. No transaction is open in it.
    pub store: DataStore<TreeMaps>,
    /// What the texts of the definitions count among the bytes of data, as they are stored. It stands still at the end of a `u64`.
    pub text_bytes: u64,
}

// Entries that were gathered, as a store.
fn stored(alloc: Global, entries: EntryMap) -> Result<StoredPages, FindFault>
    ensures has { IfOk result (λ pages. HasSomePages pages.store) }
    ensures counts { IfOk result (λ pages. min (map_size (map_at pages.store.tables 0)) (2 ^ 64 - 1) ≤ pages.text_bytes) }
    ensures pages { (c : List ℕ) (image : FoundImage) → HasImage c image → Gathers entries.entries (found_entries image c) → StandsUpTo 10 c (as_header image.header) → IfOk result (λ pages. HasPagesOf c pages.store × CountsTextsOf c pages.text_bytes) }
    ensures passes { (c : List ℕ) (image : FoundImage) → HasImage c image → Gathers entries.entries (found_entries image c) → StandsUpTo 10 c (as_header image.header) → OnOk result (StandsUpTo 12 c (as_header image.header)) }
    ensures refused { (c : List ℕ) (image : FoundImage) → HasImage c image → Gathers entries.entries (found_entries image c) → StandsUpTo 10 c (as_header image.header) → IfBad result (λ bad. IsRefused c bad) }
    ensures pruned { IfOk result (λ pages. (pages.store.row_versions.pruned ≡ 0) × (pages.store.delta_versions.pruned ≡ 0)) }
    ensures past { IfOk result (λ pages. (pages.store.row_versions.versions ≡ []) × (pages.store.delta_versions.versions ≡ []) × (pages.store.pending.entries ≡ map.empty)) }
    ensures no_disk { (count : ℕ) → FindFaults result count count }
{
    match read_parts(alloc, &entries) {
        Ok(parts) => {
            let text_bytes = parts_bytes(&parts);
            match store_of(alloc, entries, &parts) {
                Ok(store) => Ok(StoredPages { store, text_bytes }),
                Err(fault) => Err(fault),
            }
        }
        Err(fault) => Err(fault),
    }
}

/// What the stored pages of an image have, as a store, in which no transaction is open: rules 10 to 12 of the image. Two entries of one
/// index don't have one key, the texts of definitions make objects one after another, and each other entry is a row of one of their tables
/// or of one of their views.
///
/// # Errors
///
/// `BadImage` with the least of these rules that fails, and the place at which it does. `DiskFault` where the disk failed. `NoMemory` where
/// there was none for it.
pub fn read_pages<D: Disk>(
    alloc: Global,
    disk: &mut D,
    image: &FoundImage,
) -> Result<StoredPages, FindFault>
    requires disk { D.size_of disk.old ≡ 278528 + 2 * image.now.header.area_bytes + 16384 * image.now.header.pages }
    // The store has some pages, whatever the disk is,
    ensures has { IfOk result (λ pages. HasSomePages pages.store) }
    // whose texts count at most as many bytes as are told,
    ensures counts { IfOk result (λ pages. min (map_size (map_at pages.store.tables 0)) (2 ^ 64 - 1) ≤ pages.text_bytes) }
    // and just those that stand on a disk that is told.
    ensures pages { D.is_told → HasImage (D.seen disk.old) image.now → IfOk result (λ pages. HasPagesOf (D.seen disk.old) pages.store × CountsTextsOf (D.seen disk.old) pages.text_bytes) }
    // No rule up to 12 fails.
    ensures passes { D.is_told → HasImage (D.seen disk.old) image.now → OnOk result (StandsUpTo 12 (D.seen disk.old) (as_header image.now.header)) }
    // What is told is the least rule that fails.
    ensures refused { D.is_told → HasImage (D.seen disk.old) image.now → IfBad result (λ bad. IsRefused (D.seen disk.old) bad) }
    // It has no versions.
    ensures pruned { IfOk result (λ pages. (pages.store.row_versions.pruned ≡ 0) × (pages.store.delta_versions.pruned ≡ 0)) }
    ensures past { IfOk result (λ pages. (pages.store.row_versions.versions ≡ []) × (pages.store.delta_versions.versions ≡ []) × (pages.store.pending.entries ≡ map.empty)) }
    ensures only_read { IsOnlyRead D.is_told D.size_of D.seen D.may_leave D.moment D.left_since disk.old disk.new }
    ensures cause { FindFaults result (D.faults disk.old) (D.faults disk.new) }
{
    match gather_entries(alloc, disk, image) {
        Ok(entries) => stored(alloc, entries),
        Err(fault) => Err(fault),
    }
}
