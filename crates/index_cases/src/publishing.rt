//! A publish of maps over 512 pages to a new disk, and what its stored pages hold.
use crate::quiet::Quiet;
use anyhow::bail;
use disk_io::{CallList, Disk, MemoryDisk};
use iv_types::SortedMaps;
use ordered_index::PageMaps;
use page_store::HeaderFacts;
use slot_page::{count, index, is_leaf};
use std::alloc::Global;
use std::fmt::Write;

const AREA: u64 = 65_536;

/// The bytes of a disk for 512 pages, with two headers and two log areas.
const SIZE: u64 = 278_528 + 2 * AREA + 16_384 * 512;

/// Where the page map of header 1 begins, the first to be published.
const MAP: u64 = 139_264 + 64;

/// The limit of 512 pages.
const LIMIT: u64 = 307_200;

// Publishes to a disk that has no live header.
fn publish(maps: &mut PageMaps, disk: &mut Quiet) -> anyhow::Result<()> {
    let facts = HeaderFacts {
        format: 1,
        number: 1,
        commits: 0,
        next_entry: 1,
        area: 0,
    };
    if disk.size() != SIZE || maps.used().saturating_add(maps.room()) != LIMIT {
        bail!("no such publish");
    }
    if maps.publish(disk, &facts, &[0xA5, 0, 0, 0, 0, 0]).is_err() {
        bail!("a publish that fails");
    }
    Ok(())
}

// Reads bytes of a disk.
fn read(disk: &mut Quiet, at: u64, into: &mut [u8]) -> anyhow::Result<()> {
    let size = disk.size();
    if at > size || into.len() as u64 > size - at {
        bail!("outside the disk");
    }
    if disk.read(at, into).is_err() {
        bail!("a read that fails");
    }
    Ok(())
}

// Writes the index and the number of entries of a stored page.
fn write_page(out: &mut String, disk: &mut Quiet, page: &mut [u8], at: u64) -> anyhow::Result<()> {
    read(disk, at, page)?;
    if page.len() != 8192 || !is_leaf(page) {
        bail!("not a leaf");
    }
    let of = index(page);
    let entries = count(page);
    if !out.as_str().is_empty() {
        out.push(' ')?;
    }
    write!(out, "{of}:{entries}")?;
    Ok(())
}

/// Publishes, and writes for each stored page its index and its number of entries.
pub fn write_published(alloc: Global, out: &mut String, maps: &mut PageMaps) -> anyhow::Result<()> {
    let mut disk = Quiet {
        disk: MemoryDisk::new(alloc, SIZE, 1_000_000, CallList::new(alloc))?,
    };
    publish(maps, &mut disk)?;
    let mut page = vec![in alloc; 0u8; 8192]?;
    for number in 0..512u64 {
        let mut named = [0];
        read(&mut disk, MAP + number, &mut named)?;
        if named[0] == 1 {
            write_page(
                out,
                &mut disk,
                &mut page,
                278_528 + 2 * AREA + 16_384 * number,
            )?;
        }
    }
    if out.as_str().is_empty() {
        out.push_str("nothing")?;
    }
    Ok(())
}
