//! The entries of all stored pages: rule 10.
ghost use Rattle.std.specs.Prelude.{◌≡◌, ◌+◌, ◌*◌, ◌<◌, ◌≤◌, ◌++◌, ℕ, List, [], length, get_or, IfOk, OnOk};
ghost use Rattle.page_store.specs.Image.{slot_at};
ghost use Rattle.txn_log.specs.Damaged.{Found, found_in};
ghost use Rattle.log_disk.specs.Bears.{page_entries};
ghost use Rattle.slot_page.specs.Page.{IsLeaf};
ghost use Rattle.image_finding.specs.Reads.{IsOnlyRead};
ghost use Rattle.image_finding.specs.Faults.{IfBad, FindFaults};
ghost use Rattle.image_finding.specs.Rules.{IsRefused};
ghost use Rattle.image_finding.specs.Headers.{as_header, StandsUpTo};
ghost use Rattle.image_finding.specs.Images.{HasImage};
ghost use Rattle.image_entries.specs.Entries.{found_on, found_before, found_entries, Gathers, TellsTwice};

use crate::fault::PAGES_FORMED;
use crate::stored::EntryMap;
use crate::twice::take_page;
use disk_io::Disk;
use image_finding::{BadImage, FindFault, FoundImage, read_page};
use slot_page::{PAGE, is_leaf};
use spare_map::SpareMap;
use std::alloc::Global;
use wal_log::AREAS_AT;

/// Where slot 0 or 1 of a page begins, with so many bytes in a log area.
fn slot_place(area_bytes: u64, n: u32, slot: u8) -> u64
    requires { area_bytes ≤ 268435456 }
    ensures { result ≡ slot_at area_bytes n slot }
{
    AREAS_AT + 2 * area_bytes + (2 * n as u64 + slot as u64) * PAGE as u64
}

/// Puts the entries of the bytes of a stored page that begins at this place under their places.
fn take_stored(
    alloc: Global,
    entries: &mut EntryMap,
    place: u64,
    page: &[u8],
) -> Result<(), FindFault>
    requires size { length page.now ≡ 8192 }
    ensures taken { (fs : List Found) → Gathers entries.old.entries fs → OnOk result (Gathers entries.new.entries (fs ++ found_in place (page_entries page.now))) }
    ensures twice { IsLeaf page.now → (fs rest : List Found) → Gathers entries.old.entries fs → IfBad result (λ bad. TellsTwice (fs ++ (found_in place (page_entries page.now) ++ rest)) bad) }
    ensures no_disk { (count : ℕ) → FindFaults result count count }
{
    if is_leaf(page) {
        return take_page(alloc, entries, place, page);
    }
    Err(FindFault::BadImage(BadImage {
        rule: PAGES_FORMED,
        place,
    }))
}

/// Reads page `n`, if it is stored, and puts its entries under their places.
fn take_next<D: Disk>(
    alloc: Global,
    disk: &mut D,
    image: &FoundImage,
    n: u32,
    page: &mut [u8],
    entries: &mut EntryMap,
) -> Result<(), FindFault>
    requires disk { D.size_of disk.old ≡ 278528 + 2 * image.now.header.area_bytes + 16384 * image.now.header.pages }
    requires inside { n < image.now.header.pages }
    requires page { length page.old ≡ 8192 }
    ensures taken { D.is_told → (fs : List Found) → Gathers entries.old.entries fs → OnOk result (Gathers entries.new.entries (fs ++ found_on image.now.header.area_bytes n (get_or image.now.map n 0) (D.seen disk.old))) }
    ensures twice { D.is_told → HasImage (D.seen disk.old) image.now → (fs rest : List Found) → Gathers entries.old.entries fs → IfBad result (λ bad. TellsTwice (fs ++ (found_on image.now.header.area_bytes n (get_or image.now.map n 0) (D.seen disk.old) ++ rest)) bad) }
    ensures page { length page.new ≡ 8192 }
    ensures only_read { IsOnlyRead D.is_told D.size_of D.seen D.may_leave D.moment D.left_since disk.old disk.new }
    ensures cause { FindFaults result (D.faults disk.old) (D.faults disk.new) }
{
    let byte = image.map.as_slice()[n as usize];
    if byte == 0 {
        return Ok(());
    }
    read_page(disk, image, n, page)?;
    take_stored(
        alloc,
        entries,
        slot_place(image.header.area_bytes, n, byte - 1),
        page,
    )
}

/// Reads the stored pages, one after another into one buffer, and puts their entries under their places.
fn take_pages<D: Disk>(
    alloc: Global,
    disk: &mut D,
    image: &FoundImage,
    page: &mut [u8],
    entries: &mut EntryMap,
) -> Result<(), FindFault>
    requires disk { D.size_of disk.old ≡ 278528 + 2 * image.now.header.area_bytes + 16384 * image.now.header.pages }
    requires page { length page.old ≡ 8192 }
    ensures taken { D.is_told → Gathers entries.old.entries [] → OnOk result (Gathers entries.new.entries (found_entries image.now (D.seen disk.old))) }
    ensures twice { D.is_told → HasImage (D.seen disk.old) image.now → Gathers entries.old.entries [] → IfBad result (λ bad. TellsTwice (found_entries image.now (D.seen disk.old)) bad) }
    ensures only_read { IsOnlyRead D.is_told D.size_of D.seen D.may_leave D.moment D.left_since disk.old disk.new }
    ensures cause { FindFaults result (D.faults disk.old) (D.faults disk.new) }
{
    for n in 0..image.header.pages {
        if let Err(fault) = take_next(alloc, disk, image, n, page, entries) {
            return Err(fault);
        }
    }
    Ok(())
}

/// Reads the entries of all stored pages of an image into one map: rule 10.
///
/// # Errors
///
/// `BadImage` with rule 10 and the place of the first page that has the index and the key of an earlier entry once more;
/// `DiskFault` exactly where the disk's count of faults rises; `NoMemory` where there was none for what is read.
pub fn gather_entries<D: Disk>(
    alloc: Global,
    disk: &mut D,
    image: &FoundImage,
) -> Result<EntryMap, FindFault>
    requires disk { D.size_of disk.old ≡ 278528 + 2 * image.now.header.area_bytes + 16384 * image.now.header.pages }
    // The map has just the entries of the stored pages, of which no two have one place.
    ensures found { D.is_told → HasImage (D.seen disk.old) image.now → IfOk result (λ entries. Gathers entries.entries (found_entries image.now (D.seen disk.old))) }
    // No rule up to 10 fails.
    ensures stands { D.is_told → HasImage (D.seen disk.old) image.now → OnOk result (StandsUpTo 10 (D.seen disk.old) (as_header image.now.header)) }
    // What is answered is the least rule that fails.
    ensures refused { D.is_told → HasImage (D.seen disk.old) image.now → IfBad result (λ bad. IsRefused (D.seen disk.old) bad) }
    ensures only_read { IsOnlyRead D.is_told D.size_of D.seen D.may_leave D.moment D.left_since disk.old disk.new }
    ensures cause { FindFaults result (D.faults disk.old) (D.faults disk.new) }
{
    let mut page = vec![in alloc; 0; PAGE]?;
    let mut entries = SpareMap::new();
    match take_pages(alloc, disk, image, &mut page, &mut entries) {
        Ok(()) => Ok(entries),
        Err(fault) => Err(fault),
    }
}
