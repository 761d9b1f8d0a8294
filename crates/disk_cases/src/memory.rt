//! Disks in memory, and what crashes leave of them.
//!
//! `new BYTES ROOM CALL..` makes the disk, with the numbers of the calls that are to fail. Beside the calls of any disk
//! there are `recorded` and `faults`, `images MOMENT`, the first eight bytes of what a crash leaves, torn before, after and
//! with zeros, and `make image MOMENT TORN ROOM`. A call behind `image: ` goes to that image, and `make older ..` makes an
//! image of it, which `older: ` calls.
use crate::calls::{call_disk, calls_to_fail, write_read};
use anyhow::bail;
use case_text::{all_words, first_word, number_at, word_at};
use disk_io::{MemoryDisk, Torn};
use std::alloc::Global;
use std::fmt::Write;

/// How a crash tears, in the order in which it is told.
pub const EACH: [Torn; 3] = [Torn::Before, Torn::After, Torn::Zeros];

fn torn_by(word: &str) -> anyhow::Result<Torn> {
    match word {
        "before" => Ok(Torn::Before),
        "after" => Ok(Torn::After),
        "zeros" => Ok(Torn::Zeros),
        _ => bail!("no such way"),
    }
}

/// What a crash at a moment leaves.
pub fn image_at(
    disk: &MemoryDisk,
    moment: u64,
    torn: Torn,
    room: u64,
) -> anyhow::Result<MemoryDisk> {
    if moment > disk.recorded() {
        bail!("no such moment");
    }
    Ok(disk.image(moment, torn, room)?)
}

/// Disks in memory: one, an image of it and an image of that.
#[derive(Drop)]
pub struct MemoryDisks {
    disk: Option<MemoryDisk>,
    image: Option<MemoryDisk>,
    older: Option<MemoryDisk>,
}

// A new disk of so many bytes, with that room and the calls that are to fail.
fn new_disk(alloc: Global, words: &[&str]) -> anyhow::Result<MemoryDisk> {
    let bytes = number_at(words, 0)?;
    let room = number_at(words, 1)?;
    let Some(rest) = words.get(2..) else {
        bail!("a word is wanting")
    };
    let failing = calls_to_fail(alloc, rest)?;
    Ok(MemoryDisk::new(alloc, bytes, room, failing)?)
}

// An image of a disk, by the words of its moment, its way of tearing and its room.
fn image_by(disk: &Option<MemoryDisk>, words: &[&str]) -> anyhow::Result<MemoryDisk> {
    let moment = number_at(words, 0)?;
    let torn = torn_by(word_at(words, 1)?)?;
    let room = number_at(words, 2)?;
    match disk {
        Some(disk) => image_at(disk, moment, torn, room),
        None => bail!("no disk"),
    }
}

/// Puts a disk in place of another, whose memory is given back.
pub fn keep(place: &mut Option<MemoryDisk>, disk: MemoryDisk) {
    *place = Some(disk);
}

fn write_image(
    alloc: Global,
    out: &mut String,
    disk: &MemoryDisk,
    moment: u64,
    torn: Torn,
) -> anyhow::Result<()> {
    let mut image = image_at(disk, moment, torn, 0)?;
    write_read(alloc, out, &mut image, 0, 8)
}

fn write_images(
    alloc: Global,
    out: &mut String,
    disk: &MemoryDisk,
    moment: u64,
) -> anyhow::Result<()> {
    let mut is_first = true;
    for torn in EACH {
        out.push_str(if is_first { "" } else { " | " })?;
        is_first = false;
        write_image(alloc, out, disk, moment, torn)?;
    }
    Ok(())
}

/// Makes a call that a disk in memory has, and writes what it answers.
pub fn call_memory(
    alloc: Global,
    out: &mut String,
    disk: &mut MemoryDisk,
    asked: &str,
) -> anyhow::Result<()> {
    let (call, rest) = first_word(asked);
    match call {
        "recorded" => {
            let recorded = disk.recorded();
            write!(out, "{recorded}")?;
            Ok(())
        }
        "faults" => {
            let faults = disk.faults();
            write!(out, "{faults}")?;
            Ok(())
        }
        "images" => write_images(alloc, out, disk, rest.parse::<u64>()?),
        _ => call_disk(alloc, out, disk, asked),
    }
}

fn call_kept(
    alloc: Global,
    out: &mut String,
    disk: &mut Option<MemoryDisk>,
    asked: &str,
) -> anyhow::Result<()> {
    match disk {
        Some(disk) => call_memory(alloc, out, disk, asked),
        None => bail!("no disk"),
    }
}

impl MemoryDisks {
    pub fn new() -> MemoryDisks {
        MemoryDisks {
            disk: None,
            image: None,
            older: None,
        }
    }

    // Makes a disk or an image, where that is asked for.
    fn make(&mut self, alloc: Global, call: &str, rest: &str) -> anyhow::Result<()> {
        let words = all_words(alloc, rest)?;
        match call {
            "new" => keep(&mut self.disk, new_disk(alloc, &words)?),
            "image" => keep(&mut self.image, image_by(&self.disk, &words)?),
            "older" => keep(&mut self.older, image_by(&self.image, &words)?),
            _ => bail!("no such disk"),
        }
        Ok(())
    }

    pub fn call(&mut self, alloc: Global, out: &mut String, asked: &str) -> anyhow::Result<()> {
        let (call, rest) = first_word(asked);
        match call {
            "new" => self.make(alloc, call, rest)?,
            "make" => {
                let (kind, rest) = first_word(rest);
                self.make(alloc, kind, rest)?;
            }
            "image:" => return call_kept(alloc, out, &mut self.image, rest),
            "older:" => return call_kept(alloc, out, &mut self.older, rest),
            _ => return call_kept(alloc, out, &mut self.disk, asked),
        }
        out.push_str("made")?;
        Ok(())
    }
}
