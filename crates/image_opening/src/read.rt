//! An image, read.
ghost use Rattle.std.specs.Prelude.{◌≡◌, ◌+◌, ◌-◌, ◌^◌, ◌≤◌, ◌<◌, ℕ, List, min, IfOk, IfErr};
ghost use Rattle.iv_types.specs.Maps.{map_size, used};
ghost use Rattle.disk_io.specs.Disk.{AreBytes};
ghost use Rattle.table_store.specs.Lists.{map_at};
ghost use Rattle.txn_log.specs.Damaged.{FitsDevice};
ghost use Rattle.txn_log.specs.Replay.{Pages};
ghost use Rattle.txn_log.specs.Refused.{PlacedImage, most_number};
ghost use Rattle.log_disk.specs.Placed.{data_limit};
ghost use Rattle.image_finding.specs.Headers.{as_header, StandsUpTo};
ghost use Rattle.image_finding.specs.Images.{HasImage};
ghost use Rattle.image_finding.specs.Reads.{IsOnlyRead};
ghost use Rattle.record_replay.specs.Standing.{Has};
ghost use Rattle.record_replay.specs.Texts.{texts_entries};
ghost use Rattle.log_replay.specs.Told.{IsRecovered};
ghost use Rattle.image_pages.specs.Pages.{no_limit, HasSomePages, HasPagesOf, CountsTextsOf};
ghost use Rattle.image_opening.specs.Faults.{OpenFaults};
ghost use Rattle.image_opening.specs.Images.{IsImageIn};
ghost use Rattle.image_opening.specs.Telling.{HasNoPast, HasSound, Opens, Refuses};

use crate::bytes::{rows_bytes, texts_bytes};
use crate::fault::{OpenFault, open_fault, views_fault};
use crate::records::replayed;
use crate::views::checked;
use disk_io::Disk;
use image_finding::{FoundImage, LiveHeader, find_image};
use image_pages::{StoredPages, read_pages};
use iv_types::Catalog;
use record_replay::Replay;
use std::alloc::Global;
use tree_maps::TreeMaps;

// Entries may take so many bytes for each page above these.
const PAGE_BYTES: u64 = 1200;

const SPARE_PAGES: u64 = 256;

/// What an image recovers to.
#[derive(Drop)]
pub struct Recovered {
    /// The live header of the image.
    pub header: LiveHeader,
    /// Its records, replayed: the store has what was committed, and no transaction is open in it.
    pub replay: Replay<TreeMaps>,
}

// How many bytes of data there are: of rows, of the texts of the pages' definitions, and of those among the records.
fn data_bytes(replay: &Replay<TreeMaps>, image: &FoundImage, text_bytes: u64) -> u64
    ensures { result ≡ min (used (map_at replay.now.store.tables) - map_size (map_at replay.now.store.tables 0) + text_bytes + texts_entries image.now.records) (2 ^ 64 - 1) }
{
    rows_bytes(replay.store.tables.maps())
        .saturating_add(text_bytes)
        .saturating_add(texts_bytes(image.records.as_slice()))
}

// The most bytes that the data of so many pages may have.
fn data_limit(pages: u32) -> u64
    ensures { result ≡ data_limit pages }
{
    (pages as u64).saturating_sub(SPARE_PAGES) * PAGE_BYTES
}

// The definitions of what was replayed, which is let go.
fn catalog_of(replay: Replay<TreeMaps>) -> Catalog
    ensures { result ≡ replay.store.catalog }
{
    let store = replay.store;
    store.catalog
}

// What was replayed, if its bytes and its views are as they have to be.
fn compared(
    replay: Replay<TreeMaps>,
    image: &FoundImage,
    text_bytes: u64,
) -> Result<Recovered, OpenFault>
    requires has { (p : Pages) × Has map_at no_limit replay.store p × (replay.commits ≡ p.db.number) × (replay.next ≤ most_number + 1) }
    requires few { replay.commits < 2 ^ 63 }
    requires texts { min (map_size (map_at replay.store.tables 0)) (2 ^ 64 - 1) ≤ text_bytes + texts_entries image.now.records }
    ensures opened { (c : List ℕ) → AreBytes c → StandsUpTo 12 c (as_header image.now.header) → HasImage c image.now → CountsTextsOf c text_bytes → ((i : PlacedImage) → IsImageIn c i → IsRecovered map_at no_limit replay i) → IfOk result (Opens c) }
    ensures refused { (c : List ℕ) → AreBytes c → StandsUpTo 12 c (as_header image.now.header) → HasImage c image.now → CountsTextsOf c text_bytes → ((i : PlacedImage) → IsImageIn c i → IsRecovered map_at no_limit replay i) → IfErr result (Refuses c) }
    ensures sound { IfOk result HasSound }
    ensures replay { IfOk result (λ r. r.replay ≡ replay) }
    ensures header { IfOk result (λ r. r.header ≡ image.now.header) }
    ensures no_disk { (count : ℕ) → OpenFaults result count count }
{
    let bytes = data_bytes(&replay, image, text_bytes);
    match checked(&replay.store, bytes, data_limit(image.header.pages)) {
        Ok(()) => Ok(Recovered {
            header: image.header,
            replay,
        }),
        Err(fault) => Err(views_fault(fault, catalog_of(replay))),
    }
}

// What the stored pages and the records of an image recover to.
fn recover(pages: StoredPages, image: &FoundImage) -> Result<Recovered, OpenFault>
    requires has { HasSomePages pages.store }
    requires counts { min (map_size (map_at pages.store.tables 0)) (2 ^ 64 - 1) ≤ pages.text_bytes }
    requires commits { image.now.header.commits ≤ 2 ^ 62 }
    ensures opened { (c : List ℕ) → AreBytes c → StandsUpTo 12 c (as_header image.now.header) → HasImage c image.now → HasPagesOf c pages.store × CountsTextsOf c pages.text_bytes → IfOk result (Opens c) }
    ensures refused { (c : List ℕ) → AreBytes c → StandsUpTo 12 c (as_header image.now.header) → HasImage c image.now → HasPagesOf c pages.store × CountsTextsOf c pages.text_bytes → IfErr result (Refuses c) }
    ensures sound { IfOk result HasSound }
    ensures no_past { HasNoPast pages.store → IfOk result (λ r. HasNoPast r.replay.store) }
    ensures header { IfOk result (λ r. r.header ≡ image.now.header) }
    ensures no_disk { (count : ℕ) → OpenFaults result count count }
{
    let StoredPages { store, text_bytes } = pages;
    match replayed(store, image) {
        Ok(replay) => compared(replay, image, text_bytes),
        Err(fault) => Err(open_fault(fault)),
    }
}

// What an image that was found recovers to.
fn read_found<D: Disk>(
    alloc: Global,
    disk: &mut D,
    image: &FoundImage,
) -> Result<Recovered, OpenFault>
    requires fits { FitsDevice (as_header image.now.header) (D.size_of disk.old) }
    ensures opened { D.is_told → HasImage (D.seen disk.old) image.now → IfOk result (Opens (D.seen disk.old)) }
    ensures refused { D.is_told → HasImage (D.seen disk.old) image.now → IfErr result (Refuses (D.seen disk.old)) }
    ensures sound { IfOk result HasSound }
    ensures no_past { IfOk result (λ r. HasNoPast r.replay.store) }
    ensures header { IfOk result (λ r. r.header ≡ image.now.header) }
    ensures only_read { IsOnlyRead D.is_told D.size_of D.seen D.may_leave D.moment D.left_since disk.old disk.new }
    ensures cause { OpenFaults result (D.faults disk.old) (D.faults disk.new) }
{
    match read_pages(alloc, disk, image) {
        Ok(pages) => recover(pages, image),
        Err(fault) => Err(open_fault(fault)),
    }
}

/// Reads the image of a database on a device of any size with any bytes, and what it recovers to. Nothing is written.
///
/// # Errors
///
/// `BadImage` with the first rule of the image that fails, and the place at which it does. `BadView` with the first stored row of a view
/// that is not what the view has, evaluated afresh. `DiskFault` where the disk failed, and its count of faults rose then. `NoMemory` where
/// there was none for it.
pub fn read_image<D: Disk>(alloc: Global, disk: &mut D) -> Result<Recovered, OpenFault>
    // The image that stands there is refused for nothing, and what was read is what it recovers to.
    ensures opened { D.is_told → IfOk result (Opens (D.seen disk.old)) }
    // It is refused for what is told.
    ensures refused { D.is_told → IfErr result (Refuses (D.seen disk.old)) }
    // Whatever the disk is, the store has some pages whose views are as they are evaluated afresh, and what it counts is within its limits;
    ensures sound { IfOk result HasSound }
    // the header's sizes are those of the disk, its numbers are at most 2^62,
    ensures fits { IfOk result (λ r. FitsDevice (as_header r.header) (D.size_of disk.new)) }
    // and it names one of the two log areas.
    ensures area { IfOk result (λ r. r.header.area ≤ 1) }
    // The store that has it has no versions of rows.
    ensures no_past { IfOk result (λ r. HasNoPast r.replay.store) }
    // The disk is only read.
    ensures only_read { IsOnlyRead D.is_told D.size_of D.seen D.may_leave D.moment D.left_since disk.old disk.new }
    ensures cause { OpenFaults result (D.faults disk.old) (D.faults disk.new) }
{
    match find_image(alloc, disk) {
        Ok(image) => read_found(alloc, disk, &image),
        Err(fault) => Err(open_fault(fault)),
    }
}
