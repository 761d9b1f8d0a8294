//! The entries of the stored pages of an image.
//!
//! `entries` finds the image and answers the entries of its stored pages in the order of their places, up to nine, each as
//! `INDEX KEY VALUE at PLACE` with the place of its page, joined by ` + `; or `none`, the rule that fails, or `fault`.
use crate::images::write_fault;
use crate::quiet::Quiet;
use anyhow::bail;
use case_text::write_hexadecimal;
use disk_io::Disk;
use image_entries::{EntryMap, gather_entries};
use image_finding::{FoundImage, find_image};
use std::alloc::Global;
use std::fmt::Write;
use std::mem::forget;

/// The most entries that are written.
const MOST_WRITTEN: u32 = 9;

fn write_entry(out: &mut String, entries: &EntryMap, index: u32, key: &[u8]) -> anyhow::Result<()> {
    let Some(stored) = entries.get(index, key) else {
        bail!("no such entry")
    };
    let place = stored.page;
    write!(out, "{index} ")?;
    write_hexadecimal(out, key)?;
    out.push(' ')?;
    write_hexadecimal(out, stored.value.as_slice())?;
    write!(out, " at {place}")?;
    Ok(())
}

fn write_entries(out: &mut String, entries: &EntryMap) -> anyhow::Result<()> {
    let mut next = entries.first_at(0, &[]);
    if next.is_none() {
        out.push_str("none")?;
    }
    for i in 0..MOST_WRITTEN {
        let Some((index, key)) = next else {
            break;
        };
        if i > 0 {
            out.push_str(" + ")?;
        }
        write_entry(out, entries, index, key)?;
        next = entries.first_after(index, key);
    }
    Ok(())
}

fn gather(
    alloc: Global,
    out: &mut String,
    disk: &mut Quiet,
    image: &FoundImage,
) -> anyhow::Result<()> {
    let pages = image.header.pages as u64;
    let size = 278_528 + 2 * image.header.area_bytes + 16_384 * pages;
    if disk.size() != size {
        bail!("another disk");
    }
    match gather_entries(alloc, disk, image) {
        Ok(entries) => {
            let told = write_entries(out, &entries);
            forget(entries);
            told
        }
        Err(fault) => write_fault(out, fault),
    }
}

/// Finds the image of a disk and writes the entries of its stored pages.
pub fn entries(alloc: Global, out: &mut String, disk: &mut Quiet) -> anyhow::Result<()> {
    match find_image(alloc, disk) {
        Ok(image) => {
            let told = gather(alloc, out, disk, &image);
            forget(image);
            told
        }
        Err(fault) => write_fault(out, fault),
    }
}
