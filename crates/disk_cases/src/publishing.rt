//! A publish of 512 pages and a new database on such a disk, and what the disk means then.
use crate::quiet::Quiet;
use anyhow::bail;
use disk_io::Disk;
use page_store::{HeaderFacts, PageStore};
use recovery::{FormatFault, disk_bytes, format_disk};
use std::alloc::Global;
use std::fmt::Write;

pub const PAGES: u32 = 512;

const AREA: u64 = 65_536;

/// The bytes of a disk for the pages, with two headers and two log areas.
pub const SIZE: u64 = 278_528 + 2 * AREA + 16_384 * 512;

const HEADER_1: u64 = 139_264;

/// Publishes with a first block of one byte, and says whether that was done.
pub fn publish(
    store: &mut PageStore,
    disk: &mut Quiet,
    number: u64,
    area: u8,
    tag: u8,
) -> anyhow::Result<bool> {
    if store.pages() != PAGES || disk.size() != SIZE || area > 1 {
        bail!("no such publish");
    }
    let facts = HeaderFacts {
        format: 1,
        number,
        commits: 5,
        next_entry: 7,
        area,
    };
    Ok(
        store
            .publish(disk, &facts, &[0xA5, 0, 0, 0, 1, tag, 0])
            .is_ok(),
    )
}

/// Makes a new database of a disk, and says whether that was done.
pub fn format(alloc: Global, disk: &mut Quiet) -> anyhow::Result<bool> {
    if disk.size() != disk_bytes(PAGES, 64) {
        bail!("no disk of 512 pages");
    }
    match format_disk(alloc, disk, PAGES, 64) {
        Ok(()) => Ok(true),
        Err(FormatFault::DiskFault) => Ok(false),
        Err(FormatFault::NoMemory) => bail!("no memory"),
    }
}

// The byte at a place, or 0xEE where it is not read.
fn byte_at<D: Disk>(disk: &mut D, at: u64) -> u8 {
    let mut into = [0xEE];
    if at >= disk.size() || disk.read(at, &mut into).is_err() {
        return 0xEE;
    }
    into[0]
}

fn holds_at<D: Disk>(disk: &mut D, at: u64, want: &[u8]) -> bool {
    let mut next = at;
    for byte in want {
        if byte_at(disk, next) != *byte {
            return false;
        }
        next = next.saturating_add(1);
    }
    true
}

// A byte of a page, in the slot that the map's byte names.
fn byte_of_page<D: Disk>(disk: &mut D, page: u64, named: u8) -> u8 {
    if named == 0 || page > 511 {
        return 0;
    }
    let slot = if named == 1 { 0 } else { 1 };
    byte_at(disk, 278_528 + 2 * AREA + (2 * page + slot) * 8192 + 100)
}

fn live_header<D: Disk>(disk: &mut D) -> Option<u64> {
    let first = holds_at(disk, 0, b"\xA5IVIEWDB");
    let second = holds_at(disk, HEADER_1, b"\xA5IVIEWDB");
    let newer = byte_at(disk, HEADER_1 + 31) > byte_at(disk, 31);
    if second && (newer || !first) {
        return Some(HEADER_1);
    }
    if first { Some(0) } else { None }
}

/// Writes what a disk means, of the few bytes that are looked at: the header's number, the byte of the first block, and
/// a byte of pages 3 and 4, which is 0 where they are not stored. `none` where no header is live.
pub fn write_meaning<D: Disk>(out: &mut String, disk: &mut D) -> anyhow::Result<()> {
    let header = match live_header(disk) {
        Some(0) => 0,
        Some(_) => HEADER_1,
        None => {
            out.push_str("none")?;
            return Ok(());
        }
    };
    let area = if byte_at(disk, header + 48) == 0 {
        0
    } else {
        AREA
    };
    let named_third = byte_at(disk, header + 67);
    let named_fourth = byte_at(disk, header + 68);
    let number = byte_at(disk, header + 31);
    let tag = byte_at(disk, 278_528 + area + 5);
    let third = byte_of_page(disk, 3, named_third);
    let fourth = byte_of_page(disk, 4, named_fourth);
    write!(out, "{number} {tag} {third} {fourth}")?;
    Ok(())
}
