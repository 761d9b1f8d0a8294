//! A log, and the disk in memory to which it is flushed.
//!
//! `new AREA CALL..` makes a log with areas of so many bytes and a disk for it, with the numbers of the calls that are to
//! fail. `state` is the used and the reserved bytes and the next number. `begin` writes the first block to the area in use
//! and syncs. `abort TRANSACTION` appends the record of a transaction's end and answers its number, `reserve BYTES` answers
//! `ok`, or `full` with the used, the reserved and the needed bytes, `give back BYTES` answers the reserved ones, and `flush`
//! answers `ok` or `fault`. `restart AREA NEXT carry TRANSACTION NUMBER` answers the state after the restart, before a record
//! of a transaction's end is carried. `area` is where the area in use begins, `block` the first block, `scan PLACE` the
//! numbers that are scanned in the area at that place, and `crash MOMENT` those in the area in use after a crash, torn before,
//! after and with zeros. Beside these there are the calls of a disk in memory.
use crate::calls::{calls_to_fail, write_done};
use crate::memory::{EACH, call_memory, image_at, keep};
use anyhow::bail;
use case_text::{all_words, byte_at, first_word, number_at, write_hexadecimal};
use disk_io::{Disk, MemoryDisk, Torn};
use std::alloc::Global;
use std::fmt::Write;
use std::mem::{forget, replace};
use wal_log::{
    AREAS_AT, LEAST_AREA, LentRecord, Log, LogFull, MOST_AREA, RecordList, ScanFault, entry_size,
    is_short, scan,
};

/// Room for the record of the disk, in bytes.
const ROOM: u64 = 4000;

#[derive(Drop)]
pub struct Logs {
    log: Option<Log>,
    disk: Option<MemoryDisk>,
}

fn new_log(alloc: Global, area: u64) -> anyhow::Result<Log> {
    if area < LEAST_AREA || area > MOST_AREA {
        bail!("no such area");
    }
    Ok(Log::new(alloc, area)?)
}

fn new_disk(alloc: Global, area: u64, failing: &[&str]) -> anyhow::Result<MemoryDisk> {
    let failing = calls_to_fail(alloc, failing)?;
    let areas = area.saturating_mul(2);
    let size = areas.saturating_add(AREAS_AT);
    Ok(MemoryDisk::new(alloc, size, ROOM, failing)?)
}

// Writes the used and the reserved bytes, and the next number.
fn write_state(out: &mut String, log: &Log) -> anyhow::Result<()> {
    let used = log.used();
    let reserved = log.reserved();
    let next = log.next_number();
    write!(out, "{used} {reserved} {next}")?;
    Ok(())
}

// Writes bytes at a place of the disk, and syncs.
fn is_put(disk: &mut MemoryDisk, at: u64, from: &[u8]) -> bool {
    let long = from.len() as u64;
    long <= disk.size()
        && at <= disk.size() - long
        && disk.write_at(at, from).is_ok()
        && disk.sync().is_ok()
}

fn begin(out: &mut String, log: &Log, disk: &mut MemoryDisk) -> anyhow::Result<()> {
    let is_done = is_put(disk, log.area_at(), log.first_block());
    write_done(out, is_done)
}

// Appends a record of this transaction's end, and tells its number.
fn append(log: &mut Log, transaction: u64) -> Option<u64> {
    if log.next_number() == u64::MAX {
        return None;
    }
    let abort = LentRecord::Abort { transaction };
    if !is_short(abort) || u128::from(log.reserved()) < entry_size(abort) {
        return None;
    }
    Some(log.append(abort))
}

fn abort(out: &mut String, log: &mut Log, transaction: u64) -> anyhow::Result<()> {
    match append(log, transaction) {
        Some(number) => write!(out, "{number}")?,
        None => out.push_str("no room")?,
    }
    Ok(())
}

fn reserve(out: &mut String, log: &mut Log, long: u64) -> anyhow::Result<()> {
    match log.reserve(long) {
        Ok(()) => out.push_str("ok")?,
        Err(
            LogFull {
                used,
                reserved,
                need,
            },
        ) => write!(out, "full {used} {reserved} {need}")?,
    }
    Ok(())
}

fn give_back(out: &mut String, log: &mut Log, bytes: u64) -> anyhow::Result<()> {
    if log.reserved() < bytes {
        bail!("so many are not reserved");
    }
    log.give_back(bytes);
    let reserved = log.reserved();
    write!(out, "{reserved}")?;
    Ok(())
}

fn flush(out: &mut String, log: &mut Log, disk: &mut MemoryDisk) -> anyhow::Result<()> {
    if log.reserved() < 5 || disk.size() < AREAS_AT + 2 * log.area_bytes() {
        bail!("no room for a block");
    }
    let is_done = log.flush(disk).is_ok();
    write_done(out, is_done)
}

// Writes the numbers of records.
fn write_numbers(out: &mut String, found: &RecordList) -> anyhow::Result<()> {
    if found.as_slice().is_empty() {
        out.push_str("none")?;
    }
    let mut is_first = true;
    for item in found.as_slice() {
        let number = item.number;
        out.push_str(if is_first { "" } else { " " })?;
        is_first = false;
        write!(out, "{number}")?;
    }
    Ok(())
}

// Writes the numbers of the records of an area.
fn write_area(alloc: Global, out: &mut String, area: &[u8]) -> anyhow::Result<()> {
    match scan(alloc, area) {
        Ok(found) => {
            let told = write_numbers(out, &found);
            forget(found);
            told
        }
        Err(ScanFault::Bad(rule, place)) => {
            write!(out, "rule {rule} at {place}")?;
            Ok(())
        }
        Err(ScanFault::NoMemory) => bail!("out of memory"),
    }
}

// Writes the numbers of the records of the area at a place of a disk.
fn write_scanned(
    alloc: Global,
    out: &mut String,
    disk: &mut MemoryDisk,
    area: u64,
    at: u64,
) -> anyhow::Result<()> {
    let mut bytes = vec![in alloc; 0; area as usize]?;
    if disk.size() < area || at > disk.size() - area {
        bail!("no such area");
    }
    if disk.read(at, &mut bytes).is_err() {
        return write_done(out, false);
    }
    write_area(alloc, out, &bytes)
}

fn write_crash(
    alloc: Global,
    out: &mut String,
    log: &Log,
    disk: &MemoryDisk,
    moment: u64,
    torn: Torn,
) -> anyhow::Result<()> {
    let mut image = image_at(disk, moment, torn, 0)?;
    write_scanned(alloc, out, &mut image, log.area_bytes(), log.area_at())
}

// Writes the numbers that are scanned after a crash, torn before, after and with zeros.
fn write_crashes(
    alloc: Global,
    out: &mut String,
    log: &Log,
    disk: &MemoryDisk,
    moment: u64,
) -> anyhow::Result<()> {
    let mut is_first = true;
    for torn in EACH {
        out.push_str(if is_first { "" } else { " | " })?;
        is_first = false;
        write_crash(alloc, out, log, disk, moment, torn)?;
    }
    Ok(())
}

// Restarts a log, tells its used and reserved bytes and its next number, and carries a record of a transaction's end
// where its block fits the area.
fn restart(
    log: &mut Log,
    area: u8,
    next: u64,
    transaction: u64,
    number: u64,
) -> Option<(u64, u64, u64)> {
    if area > 1 {
        return None;
    }
    log.restart(area, next);
    let state = (log.used(), log.reserved(), log.next_number());
    if log.used() != 6 || log.reserved() != 46 || log.area_bytes() != 96 {
        return None;
    }
    let abort = LentRecord::Abort { transaction };
    if is_short(abort) && entry_size(abort) == 17 {
        log.carry(abort, number);
    }
    Some(state)
}

fn restart_by(out: &mut String, log: &mut Log, words: &[&str]) -> anyhow::Result<()> {
    let area = byte_at(words, 0)?;
    let next = number_at(words, 1)?;
    let transaction = number_at(words, 3)?;
    let number = number_at(words, 4)?;
    match restart(log, area, next, transaction, number) {
        Some((used, reserved, next)) => write!(out, "{used} {reserved} {next}")?,
        None => out.push_str("not carried")?,
    }
    Ok(())
}

// A call that changes the log.
fn change_log(
    alloc: Global,
    out: &mut String,
    log: &mut Log,
    call: &str,
    rest: &str,
) -> anyhow::Result<()> {
    let words = all_words(alloc, rest)?;
    match call {
        "abort" => abort(out, log, number_at(&words, 0)?),
        "reserve" => reserve(out, log, number_at(&words, 0)?),
        "give" => give_back(out, log, number_at(&words, 1)?),
        _ => restart_by(out, log, &words),
    }
}

// A call that tells what the log is.
fn ask_log(out: &mut String, log: &Log, call: &str) -> anyhow::Result<()> {
    match call {
        "state" => write_state(out, log),
        "block" => write_hexadecimal(out, log.first_block()),
        _ => {
            let area = log.area_at();
            write!(out, "{area}")?;
            Ok(())
        }
    }
}

fn call_both(
    alloc: Global,
    out: &mut String,
    log: &mut Log,
    disk: &mut MemoryDisk,
    asked: &str,
) -> anyhow::Result<()> {
    let (call, rest) = first_word(asked);
    match call {
        "abort" | "reserve" | "give" | "restart" => change_log(alloc, out, log, call, rest),
        "state" | "block" | "area" => ask_log(out, log, call),
        "begin" => begin(out, log, disk),
        "flush" => flush(out, log, disk),
        "scan" => {
            let place = rest.parse::<u64>()?;
            write_scanned(alloc, out, disk, log.area_bytes(), place)
        }
        "crash" => write_crashes(alloc, out, log, disk, rest.parse::<u64>()?),
        _ => call_memory(alloc, out, disk, asked),
    }
}

impl Logs {
    pub fn new() -> Logs {
        Logs {
            log: None,
            disk: None,
        }
    }

    fn make(&mut self, alloc: Global, rest: &str) -> anyhow::Result<()> {
        let words = all_words(alloc, rest)?;
        let area = number_at(&words, 0)?;
        let Some(failing) = words.get(1..) else {
            bail!("a word is wanting")
        };
        let disk = new_disk(alloc, area, failing)?;
        keep(&mut self.disk, disk);
        let log = new_log(alloc, area)?;
        forget(replace(&mut self.log, Some(log)));
        Ok(())
    }

    pub fn call(&mut self, alloc: Global, out: &mut String, asked: &str) -> anyhow::Result<()> {
        let (call, rest) = first_word(asked);
        if call == "new" {
            self.make(alloc, rest)?;
            out.push_str("made")?;
            return Ok(());
        }
        match (&mut self.log, &mut self.disk) {
            (Some(log), Some(disk)) => call_both(alloc, out, log, disk, asked),
            _ => bail!("no log"),
        }
    }
}
