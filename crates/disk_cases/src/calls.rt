//! The calls that any disk has: `size`, `read PLACE COUNT`, `write PLACE BYTES`, `sync`, and `through PLACE BYTES`, a
//! write and a sync. A call that fails answers `fault`.
use anyhow::bail;
use case_text::{first_word, from_hexadecimal, write_hexadecimal};
use disk_io::{CallList, Disk, write_through};
use std::alloc::Global;
use std::fmt::Write;

/// The numbers of the calls that are to fail.
pub fn calls_to_fail(alloc: Global, words: &[&str]) -> anyhow::Result<CallList> {
    let mut failing = CallList::new(alloc);
    for word in words {
        failing.push(word.parse::<u64>()?)?;
    }
    Ok(failing)
}

/// Writes whether a call was done.
pub fn write_done(out: &mut String, is_done: bool) -> anyhow::Result<()> {
    out.push_str(if is_done { "ok" } else { "fault" })?;
    Ok(())
}

/// Writes the bytes from a place on, as a read gives them.
pub fn write_read<D: Disk>(
    alloc: Global,
    out: &mut String,
    disk: &mut D,
    place: u64,
    count: u64,
) -> anyhow::Result<()> {
    let mut into = vec![in alloc; 1; count as usize]?;
    if count > disk.size() || place > disk.size() - count {
        bail!("no such place");
    }
    if disk.read(place, &mut into).is_err() {
        return write_done(out, false);
    }
    write_hexadecimal(out, &into)
}

fn read<D: Disk>(alloc: Global, out: &mut String, disk: &mut D, rest: &str) -> anyhow::Result<()> {
    let (place, count) = first_word(rest);
    let place = place.parse::<u64>()?;
    let count = count.parse::<u64>()?;
    write_read(alloc, out, disk, place, count)
}

fn put<D: Disk>(disk: &mut D, place: u64, bytes: &[u8], is_through: bool) -> anyhow::Result<bool> {
    let long = bytes.len() as u64;
    if long > disk.size() || place > disk.size() - long {
        bail!("no such place");
    }
    if is_through {
        Ok(write_through(disk, place, bytes).is_ok())
    } else {
        Ok(disk.write_at(place, bytes).is_ok())
    }
}

fn write<D: Disk>(
    alloc: Global,
    out: &mut String,
    disk: &mut D,
    rest: &str,
    is_through: bool,
) -> anyhow::Result<()> {
    let (place, bytes) = first_word(rest);
    let place = place.parse::<u64>()?;
    let bytes = from_hexadecimal(alloc, bytes)?;
    let is_done = put(disk, place, &bytes, is_through)?;
    write_done(out, is_done)
}

/// Makes a call that any disk has, and writes what it answers.
pub fn call_disk<D: Disk>(
    alloc: Global,
    out: &mut String,
    disk: &mut D,
    asked: &str,
) -> anyhow::Result<()> {
    let (call, rest) = first_word(asked);
    match call {
        "size" => {
            let size = disk.size();
            write!(out, "{size}")?;
            Ok(())
        }
        "read" => read(alloc, out, disk, rest),
        "write" => write(alloc, out, disk, rest, false),
        "through" => write(alloc, out, disk, rest, true),
        "sync" => write_done(out, disk.sync().is_ok()),
        _ => bail!("no such call"),
    }
}
