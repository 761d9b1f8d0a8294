//! Pages that are published to a disk in memory.
//!
//! `new CALL..` makes 512 pages and a disk for them, with the numbers of the calls that are to fail. `fill PAGE BYTE` gives
//! each byte of a page, says that the page is stored and answers its last byte, and `unstore PAGE` says that it is not.
//! `publish NUMBER AREA BYTE` publishes with a first block of that byte, and `format` makes a new database of the disk. `meaning`
//! is what the disk means, and `images MOMENT` what the disk means after a crash, torn before, after and with zeros. Beside these
//! there are `recorded` and the calls of any disk.
use crate::calls::{call_disk, calls_to_fail, write_done};
use crate::memory::{EACH, image_at};
use crate::publishing::{PAGES, SIZE, format, publish, write_meaning};
use crate::quiet::Quiet;
use anyhow::bail;
use case_text::{all_words, byte_at, first_word, number_at, short_number_at};
use disk_io::{MemoryDisk, Torn};
use page_store::PageStore;
use std::alloc::Global;
use std::fmt::Write;

/// Room for the record of the disk, in bytes.
const ROOM: u64 = 1_000_000;

#[derive(Drop)]
pub struct Pages {
    store: Option<PageStore>,
    disk: Option<Quiet>,
}

fn new_disk(alloc: Global, rest: &str) -> anyhow::Result<MemoryDisk> {
    let words = all_words(alloc, rest)?;
    let failing = calls_to_fail(alloc, &words)?;
    Ok(MemoryDisk::new(alloc, SIZE, ROOM, failing)?)
}

// Puts a disk in place of another, whose memory is given back.
fn keep_disk(place: &mut Option<Quiet>, disk: Quiet) {
    *place = Some(disk);
}

// Puts a store in place of another, whose memory is given back.
fn keep_store(place: &mut Option<PageStore>, store: PageStore) {
    *place = Some(store);
}

// Writes the last byte of a page.
fn write_last(out: &mut String, store: &PageStore, page: u32) -> anyhow::Result<()> {
    if page >= store.pages() {
        bail!("no such page");
    }
    let Some(last) = store.page(page).last() else {
        bail!("no byte")
    };
    write!(out, "{last}")?;
    Ok(())
}

fn fill(out: &mut String, store: &mut PageStore, page: u32, byte: u8) -> anyhow::Result<()> {
    if page < store.pages() {
        store.change(page).fill(byte);
        store.set_stored(page, true);
    }
    write_last(out, store, page)
}

fn unstore(out: &mut String, store: &mut PageStore, page: u32) -> anyhow::Result<()> {
    if page < store.pages() {
        store.set_stored(page, false);
    }
    write_last(out, store, page)
}

fn write_image(out: &mut String, disk: &MemoryDisk, moment: u64, torn: Torn) -> anyhow::Result<()> {
    let mut image = image_at(disk, moment, torn, 0)?;
    write_meaning(out, &mut image)
}

fn write_images(out: &mut String, disk: &MemoryDisk, moment: u64) -> anyhow::Result<()> {
    let mut is_first = true;
    for torn in EACH {
        out.push_str(if is_first { "" } else { " | " })?;
        is_first = false;
        write_image(out, disk, moment, torn)?;
    }
    Ok(())
}

// A call of the pages alone, or of both.
fn call_pages(
    out: &mut String,
    store: &mut PageStore,
    disk: &mut Quiet,
    call: &str,
    words: &[&str],
) -> anyhow::Result<()> {
    match call {
        "fill" => fill(out, store, short_number_at(words, 0)?, byte_at(words, 1)?),
        "unstore" => unstore(out, store, short_number_at(words, 0)?),
        _ => {
            let number = number_at(words, 0)?;
            let area = byte_at(words, 1)?;
            let is_done = publish(store, disk, number, area, byte_at(words, 2)?)?;
            write_done(out, is_done)
        }
    }
}

fn call_quiet(
    alloc: Global,
    out: &mut String,
    disk: &mut Quiet,
    asked: &str,
) -> anyhow::Result<()> {
    let (call, rest) = first_word(asked);
    match call {
        "recorded" => {
            let recorded = disk.disk.recorded();
            write!(out, "{recorded}")?;
            Ok(())
        }
        "meaning" => write_meaning(out, disk),
        "format" => write_done(out, format(alloc, disk)?),
        "images" => write_images(out, &disk.disk, rest.parse::<u64>()?),
        _ => call_disk(alloc, out, disk, asked),
    }
}

fn call_both(
    alloc: Global,
    out: &mut String,
    store: &mut PageStore,
    disk: &mut Quiet,
    asked: &str,
) -> anyhow::Result<()> {
    let (call, rest) = first_word(asked);
    if call == "fill" || call == "unstore" || call == "publish" {
        let words = all_words(alloc, rest)?;
        return call_pages(out, store, disk, call, &words);
    }
    call_quiet(alloc, out, disk, asked)
}

impl Pages {
    pub fn new() -> Pages {
        Pages {
            store: None,
            disk: None,
        }
    }

    fn make(&mut self, alloc: Global, rest: &str) -> anyhow::Result<()> {
        let disk = new_disk(alloc, rest)?;
        keep_disk(&mut self.disk, Quiet { disk });
        let store = PageStore::new(alloc, PAGES)?;
        keep_store(&mut self.store, store);
        Ok(())
    }

    pub fn call(&mut self, alloc: Global, out: &mut String, asked: &str) -> anyhow::Result<()> {
        let (call, rest) = first_word(asked);
        if call == "new" {
            self.make(alloc, rest)?;
            out.push_str("made")?;
            return Ok(());
        }
        match (&mut self.store, &mut self.disk) {
            (Some(store), Some(disk)) => call_both(alloc, out, store, disk, asked),
            _ => bail!("no pages"),
        }
    }
}
