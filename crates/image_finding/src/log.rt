//! The records of the log area in use.
ghost use Rattle.std.specs.Prelude.{◌≡◌, ◌↔◌, ◌+◌, ◌≤◌, ◌<◌, ◌^◌, ℕ, List, length, IsTrue, IfOk, OnOk};
ghost use Rattle.txn_log.specs.Damaged.{FitsDevice};
ghost use Rattle.page_store.specs.Image.{area_at};
ghost use Rattle.log_records.specs.Scan.{scanned};
ghost use Rattle.log_disk.specs.Bears.{end_of_first};
ghost use Rattle.log_disk.specs.Found.{scan_fault};
ghost use Rattle.image_finding.specs.Reads.{IsOnlyRead};
ghost use Rattle.image_finding.specs.Faults.{IfBad, FindFaults};
ghost use Rattle.image_finding.specs.Rules.{IsRefused};
ghost use Rattle.image_finding.specs.Headers.{as_header, area_in, StandsUpTo};

use crate::fault::{BadImage, FIRST_BLOCK_ENDS, FindFault};
use crate::header::LiveHeader;
use crate::layout::REDO_AT;
use crate::reading::read_bytes;
use byteorder::{BigEndian, ByteOrder};
use disk_io::Disk;
use log_records::{OPEN, RecordList, ScanFault, scan};
use std::alloc::Global;
use wal_log::AREAS_AT;

/// Where the log area in use begins.
fn area_place(header: &LiveHeader) -> u64
    requires area { header.now.area ≤ 1 }
    requires bytes { header.now.area_bytes ≤ 268435456 }
    ensures { result ≡ area_at header.now.area_bytes header.now.area }
{
    if header.area == 0 {
        AREAS_AT
    } else {
        AREAS_AT + header.area_bytes
    }
}

/// Where the first block of an area ends, if its gate is open.
fn first_end(area: &[u8]) -> Option<u64>
    requires { 5 ≤ length area.now }
    ensures { result ≡ end_of_first area.now }
{
    if area[0] != OPEN {
        return None;
    }
    Some(5 + BigEndian::read_u32(&area[1..]) as u64)
}

/// Whether the first block of an area is open and ends at this place.
fn ends_at(area: &[u8], place: u64) -> bool
    requires { 5 ≤ length area.now }
    ensures { IsTrue result ↔ (end_of_first area.now ≡ Some place) }
{
    match first_end(area) {
        Some(end) => end == place,
        None => false,
    }
}

/// The records of an area that begins at this place of the device.
fn scan_at(alloc: Global, place: u64, area: &[u8]) -> Result<RecordList, FindFault>
    requires { place + length area.now < 2 ^ 64 }
    ensures records { IfOk result (λ read. scanned area.now ≡ Ok read) }
    ensures few { IfOk result (λ read. length read ≤ length area.now) }
    ensures fault { IfBad result (λ bad. scan_fault place (scanned area.now) ≡ Some (bad.rule, bad.place)) }
    // The disk is not asked.
    ensures no_disk { (count : ℕ) → FindFaults result count count }
{
    match scan(alloc, area) {
        Ok(read) => Ok(read),
        Err(ScanFault::Bad(rule, at)) => Err(FindFault::BadImage(BadImage {
            rule,
            place: place + at,
        })),
        Err(ScanFault::NoMemory) => Err(FindFault::NoMemory),
    }
}

/// The records of the log area in use, which has these bytes and begins at this place: rules 5, 6 and 7.
fn records_of(
    alloc: Global,
    header: &LiveHeader,
    place: u64,
    area: &[u8],
) -> Result<RecordList, FindFault>
    requires place { place ≡ area_at header.now.area_bytes header.now.area }
    requires bytes { length area.now ≡ header.now.area_bytes }
    requires least { 65536 ≤ header.now.area_bytes }
    requires most { place + header.now.area_bytes < 2 ^ 64 }
    ensures stands { (c : List ℕ) → area.now ≡ area_in (as_header header.now) c → StandsUpTo 4 c (as_header header.now) → OnOk result (StandsUpTo 7 c (as_header header.now)) }
    ensures refused { (c : List ℕ) → area.now ≡ area_in (as_header header.now) c → StandsUpTo 4 c (as_header header.now) → IfBad result (λ bad. IsRefused c bad) }
    ensures records { IfOk result (λ read. scanned area.now ≡ Ok read) }
    ensures few { IfOk result (λ read. length read ≤ header.now.area_bytes) }
    // The disk is not asked.
    ensures no_disk { (count : ℕ) → FindFaults result count count }
{
    if !ends_at(area, header.redo) {
        return Err(FindFault::BadImage(BadImage {
            rule: FIRST_BLOCK_ENDS,
            place: header.place + REDO_AT as u64,
        }));
    }
    scan_at(alloc, place, area)
}

/// Reads the records of the log area in use: rules 5, 6 and 7.
pub(crate) fn read_records<D: Disk>(
    alloc: Global,
    disk: &mut D,
    header: &LiveHeader,
) -> Result<RecordList, FindFault>
    requires fits { FitsDevice (as_header header.now) (D.size_of disk.old) }
    requires area { header.now.area ≤ 1 }
    ensures stands { D.is_told → StandsUpTo 4 (D.seen disk.old) (as_header header.now) → OnOk result (StandsUpTo 7 (D.seen disk.old) (as_header header.now)) }
    ensures refused { D.is_told → StandsUpTo 4 (D.seen disk.old) (as_header header.now) → IfBad result (λ bad. IsRefused (D.seen disk.old) bad) }
    ensures records { D.is_told → IfOk result (λ read. scanned (area_in (as_header header.now) (D.seen disk.old)) ≡ Ok read) }
    ensures few { IfOk result (λ read. length read ≤ header.now.area_bytes) }
    ensures only_read { IsOnlyRead D.is_told D.size_of D.seen D.may_leave D.moment D.left_since disk.old disk.new }
    ensures cause { FindFaults result (D.faults disk.old) (D.faults disk.new) }
{
    let place = area_place(header);
    match read_bytes(alloc, disk, place, header.area_bytes as usize) {
        Ok(area) => records_of(alloc, header, place, &area),
        Err(fault) => Err(fault),
    }
}
