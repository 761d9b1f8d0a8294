//! The page map and the stored pages.
ghost use Rattle.std.specs.Prelude.{◌≡◌, ◌+◌, ◌*◌, ◌^◌, ◌≤◌, ◌<◌, ℕ, List, length, get_or, if◌then◌else◌, Some, None, IfOk, IfErr, OnOk, IfSome, IfNone, vec_len};
ghost use Rattle.std.specs.Bool.{OnTrue};
ghost use Rattle.disk_io.specs.Disk.{CountsFault};
ghost use Rattle.txn_log.specs.Damaged.{FitsDevice};
ghost use Rattle.page_store.specs.Image.{slot_at, named};
ghost use Rattle.image_finding.specs.Reads.{IsOnlyRead};
ghost use Rattle.image_finding.specs.Faults.{IfBad, FindFaults};
ghost use Rattle.image_finding.specs.Rules.{IsRefused};
ghost use Rattle.image_finding.specs.Headers.{as_header, map_in, StandsUpTo};
ghost use Rattle.image_finding.specs.Maps.{IsLow, IsLeafIf, IsHighAt, IsNoLeaf, AreLeaves};
ghost use Rattle.image_finding.specs.Images.{HasImage};
ghost use Rattle.slot_page.specs.Page.{IsLeaf};

use crate::fault::{BadImage, FindFault, MAP_READ, PAGES_FORMED};
use crate::header::LiveHeader;
use crate::image::FoundImage;
use crate::layout::{MAP_AT, MOST_BYTE};
use crate::reading::{read_at, read_bytes};
use disk_io::Disk;
use iv_types::{Bytes, Failed};
use slot_page::{PAGE, is_leaf};
use std::alloc::Global;
use wal_log::AREAS_AT;

/// The first byte of a page map that is above 2.
fn first_above(map: &[u8]) -> Option<usize>
    ensures found { IfSome result (λ n. (n < length map.now) × (MOST_BYTE < get_or map.now n 0)) }
    ensures first { IfSome result (λ n. (m : ℕ) → m < n → get_or map.now m 0 ≤ MOST_BYTE) }
    ensures none { IfNone result (IsLow map.now) }
{
    map.iter().position(|byte| *byte > MOST_BYTE)
}

/// Tests a page map that begins at this place of the device: rule 8.
fn check_map(place: u64, map: &[u8]) -> Result<(), BadImage>
    requires { place + length map.now < 2 ^ 64 }
    ensures low { OnOk result (IsLow map.now) }
    ensures high { IfErr result (λ bad. IsHighAt place map.now bad) }
{
    match first_above(map) {
        Some(n) => Err(BadImage {
            rule: MAP_READ,
            place: place + n as u64,
        }),
        None => Ok(()),
    }
}

/// Reads the bytes of the page map, which are not tested.
fn read_map<D: Disk>(alloc: Global, disk: &mut D, header: &LiveHeader) -> Result<Vec<u8>, FindFault>
    requires fits { FitsDevice (as_header header.now) (D.size_of disk.old) }
    ensures map { D.is_told → IfOk result (λ map. map.items ≡ map_in (as_header header.now) (D.seen disk.old)) }
    ensures whole { IfOk result (λ map. vec_len map ≡ header.now.pages) }
    ensures no_rule { IfBad result (λ _. ⊥) }
    ensures only_read { IsOnlyRead D.is_told D.size_of D.seen D.may_leave D.moment D.left_since disk.old disk.new }
    ensures cause { FindFaults result (D.faults disk.old) (D.faults disk.new) }
{
    read_bytes(
        alloc,
        disk,
        header.place + MAP_AT as u64,
        header.pages as usize,
    )
}

/// Where slot 0 or 1 of a page begins, with so many bytes in a log area.
fn slot_place(area_bytes: u64, n: u32, slot: u8) -> u64
    requires { area_bytes ≤ 268435456 }
    ensures { result ≡ slot_at area_bytes n slot }
{
    AREAS_AT + 2 * area_bytes + (2 * n as u64 + slot as u64) * PAGE as u64
}

/// Reads the page that a byte of the page map names, if it names one.
fn read_slot<D: Disk>(
    disk: &mut D,
    area_bytes: u64,
    n: u32,
    byte: u8,
    into: &mut [u8],
) -> Result<bool, Failed>
    requires areas { area_bytes ≤ 268435456 }
    requires byte { byte ≤ 2 }
    requires page { 278528 + 2 * area_bytes + 16384 * n + 16384 ≤ D.size_of disk.old }
    requires into { length into.old ≡ 8192 }
    ensures page { D.is_told → IfOk result (λ stored. (if stored then Some into.new else None) ≡ named area_bytes n byte (D.seen disk.old)) }
    ensures stored { IfOk result (λ stored. OnTrue stored (0 < byte)) }
    ensures into { length into.new ≡ 8192 }
    ensures only_read { IsOnlyRead D.is_told D.size_of D.seen D.may_leave D.moment D.left_since disk.old disk.new }
    ensures cause { CountsFault result (D.faults disk.old) (D.faults disk.new) }
{
    if byte == 0 {
        return Ok(false);
    }
    read_at(disk, slot_place(area_bytes, n, byte - 1), into)?;
    Ok(true)
}

/// Reads a page, if it is stored, and tests it: rule 9.
fn check_page<D: Disk>(
    disk: &mut D,
    area_bytes: u64,
    n: u32,
    byte: u8,
    page: &mut [u8],
) -> Result<(), FindFault>
    requires areas { area_bytes ≤ 268435456 }
    requires byte { byte ≤ 2 }
    requires inside { 278528 + 2 * area_bytes + 16384 * n + 16384 ≤ D.size_of disk.old }
    requires page { length page.old ≡ 8192 }
    ensures leaf { D.is_told → OnOk result (IsLeafIf (named area_bytes n byte (D.seen disk.old))) }
    ensures none { D.is_told → IfBad result (λ bad. IsNoLeaf area_bytes n byte (D.seen disk.old) bad) }
    ensures page { length page.new ≡ 8192 }
    ensures only_read { IsOnlyRead D.is_told D.size_of D.seen D.may_leave D.moment D.left_since disk.old disk.new }
    ensures cause { FindFaults result (D.faults disk.old) (D.faults disk.new) }
{
    let stored = read_slot(disk, area_bytes, n, byte, page)?;
    if !stored {
        return Ok(());
    }
    if is_leaf(page) {
        return Ok(());
    }
    Err(FindFault::BadImage(BadImage {
        rule: PAGES_FORMED,
        place: slot_place(area_bytes, n, byte - 1),
    }))
}

/// Reads the stored pages, one after another into one buffer, and tests each: rule 9.
fn check_pages<D: Disk>(
    disk: &mut D,
    header: &LiveHeader,
    map: &[u8],
    page: &mut [u8],
) -> Result<(), FindFault>
    requires fits { FitsDevice (as_header header.now) (D.size_of disk.old) }
    requires whole { length map.now ≡ header.now.pages }
    requires low { IsLow map.now }
    requires page { length page.old ≡ 8192 }
    ensures leaves { D.is_told → OnOk result (AreLeaves header.now.area_bytes header.now.pages map.now (D.seen disk.old)) }
    ensures stands { D.is_told → map.now ≡ map_in (as_header header.now) (D.seen disk.old) → StandsUpTo 8 (D.seen disk.old) (as_header header.now) → OnOk result (StandsUpTo 9 (D.seen disk.old) (as_header header.now)) }
    ensures refused { D.is_told → map.now ≡ map_in (as_header header.now) (D.seen disk.old) → StandsUpTo 8 (D.seen disk.old) (as_header header.now) → IfBad result (λ bad. IsRefused (D.seen disk.old) bad) }
    ensures only_read { IsOnlyRead D.is_told D.size_of D.seen D.may_leave D.moment D.left_since disk.old disk.new }
    ensures cause { FindFaults result (D.faults disk.old) (D.faults disk.new) }
{
    for n in 0..header.pages {
        if let Err(fault) = check_page(disk, header.area_bytes, n, map[n as usize], page) {
            return Err(fault);
        }
    }
    Ok(())
}

/// Tests a page map and the stored pages that it names: rules 8 and 9.
fn check_stored<D: Disk>(
    disk: &mut D,
    header: &LiveHeader,
    map: &[u8],
    page: &mut [u8],
) -> Result<(), FindFault>
    requires fits { FitsDevice (as_header header.now) (D.size_of disk.old) }
    requires whole { length map.now ≡ header.now.pages }
    requires page { length page.old ≡ 8192 }
    ensures low { OnOk result (IsLow map.now) }
    ensures leaves { D.is_told → OnOk result (AreLeaves header.now.area_bytes header.now.pages map.now (D.seen disk.old)) }
    ensures stands { D.is_told → map.now ≡ map_in (as_header header.now) (D.seen disk.old) → StandsUpTo 7 (D.seen disk.old) (as_header header.now) → OnOk result (StandsUpTo 9 (D.seen disk.old) (as_header header.now)) }
    ensures refused { D.is_told → map.now ≡ map_in (as_header header.now) (D.seen disk.old) → StandsUpTo 7 (D.seen disk.old) (as_header header.now) → IfBad result (λ bad. IsRefused (D.seen disk.old) bad) }
    ensures only_read { IsOnlyRead D.is_told D.size_of D.seen D.may_leave D.moment D.left_since disk.old disk.new }
    ensures cause { FindFaults result (D.faults disk.old) (D.faults disk.new) }
{
    match check_map(header.place + MAP_AT as u64, map) {
        Ok(()) => check_pages(disk, header, map, page),
        Err(bad) => Err(FindFault::BadImage(bad)),
    }
}

/// A page map, tested with the stored pages that it names, by one buffer for a page: rules 8 and 9.
fn tested_map<D: Disk>(
    alloc: Global,
    disk: &mut D,
    header: &LiveHeader,
    map: Vec<u8>,
) -> Result<Bytes, FindFault>
    requires fits { FitsDevice (as_header header.now) (D.size_of disk.old) }
    requires whole { vec_len map ≡ header.now.pages }
    ensures map { IfOk result (λ tested. tested ≡ map.items) }
    ensures whole { IfOk result (λ tested. length tested ≡ header.now.pages) }
    ensures low { OnOk result (IsLow map.items) }
    ensures leaves { D.is_told → OnOk result (AreLeaves header.now.area_bytes header.now.pages map.items (D.seen disk.old)) }
    ensures stands { D.is_told → map.items ≡ map_in (as_header header.now) (D.seen disk.old) → StandsUpTo 7 (D.seen disk.old) (as_header header.now) → OnOk result (StandsUpTo 9 (D.seen disk.old) (as_header header.now)) }
    ensures refused { D.is_told → map.items ≡ map_in (as_header header.now) (D.seen disk.old) → StandsUpTo 7 (D.seen disk.old) (as_header header.now) → IfBad result (λ bad. IsRefused (D.seen disk.old) bad) }
    ensures only_read { IsOnlyRead D.is_told D.size_of D.seen D.may_leave D.moment D.left_since disk.old disk.new }
    ensures cause { FindFaults result (D.faults disk.old) (D.faults disk.new) }
{
    let mut page = vec![in alloc; 0; PAGE]?;
    match check_stored(disk, header, &map, &mut page) {
        Ok(()) => Ok(Bytes::from_vec(map)),
        Err(fault) => Err(fault),
    }
}

/// Reads the page map and tests it and the stored pages: rules 8 and 9.
pub(crate) fn read_pages<D: Disk>(
    alloc: Global,
    disk: &mut D,
    header: &LiveHeader,
) -> Result<Bytes, FindFault>
    requires fits { FitsDevice (as_header header.now) (D.size_of disk.old) }
    ensures map { D.is_told → IfOk result (λ map. map ≡ map_in (as_header header.now) (D.seen disk.old)) }
    ensures whole { IfOk result (λ map. length map ≡ header.now.pages) }
    ensures low { IfOk result (λ map. IsLow map) }
    ensures leaves { D.is_told → OnOk result (AreLeaves header.now.area_bytes header.now.pages (map_in (as_header header.now) (D.seen disk.old)) (D.seen disk.old)) }
    ensures stands { D.is_told → StandsUpTo 7 (D.seen disk.old) (as_header header.now) → OnOk result (StandsUpTo 9 (D.seen disk.old) (as_header header.now)) }
    ensures refused { D.is_told → StandsUpTo 7 (D.seen disk.old) (as_header header.now) → IfBad result (λ bad. IsRefused (D.seen disk.old) bad) }
    ensures only_read { IsOnlyRead D.is_told D.size_of D.seen D.may_leave D.moment D.left_since disk.old disk.new }
    ensures cause { FindFaults result (D.faults disk.old) (D.faults disk.new) }
{
    match read_map(alloc, disk, header) {
        Ok(map) => tested_map(alloc, disk, header, map),
        Err(fault) => Err(fault),
    }
}

/// Reads page `n` of the image, counted from 0, into a buffer of 8,192 bytes, if it is stored, and says whether it is.
///
/// # Errors
///
/// `Failed` exactly where the disk's count of faults rises.
pub fn read_page<D: Disk>(
    disk: &mut D,
    image: &FoundImage,
    n: u32,
    into: &mut [u8],
) -> Result<bool, Failed>
    requires disk { D.size_of disk.old ≡ 278528 + 2 * image.now.header.area_bytes + 16384 * image.now.header.pages }
    requires page { n < image.now.header.pages }
    requires into { length into.old ≡ 8192 }
    // The bytes of the slot that the page map names, or none.
    ensures page { D.is_told → IfOk result (λ stored. (if stored then Some into.new else None) ≡ named image.now.header.area_bytes n (get_or image.now.map n 0) (D.seen disk.old)) }
    // A stored page of the bytes that the image was found in is a leaf whose entries can be read.
    ensures leaf { D.is_told → HasImage (D.seen disk.old) image.now → IfOk result (λ stored. OnTrue stored (IsLeaf into.new)) }
    ensures into { length into.new ≡ 8192 }
    ensures only_read { IsOnlyRead D.is_told D.size_of D.seen D.may_leave D.moment D.left_since disk.old disk.new }
    ensures cause { CountsFault result (D.faults disk.old) (D.faults disk.new) }
{
    let byte = image.map.as_slice()[n as usize];
    read_slot(disk, image.header.area_bytes, n, byte, into)
}
