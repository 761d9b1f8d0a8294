//! Records and their bytes.
//!
//! `bytes NUMBER RECORD` is the bytes of a record with that number. `read PLACE BYTES` is the record that begins at a place:
//! where it begins and ends, its number and the record, or the rule that fails and where. `cut BYTES` reads each of the
//! shorter beginnings of the bytes, and answers how many of how many answer as the empty one does, and that.
//! `scan BYTES` is all records of an area, with ` / ` between them.
use crate::record_texts::{record_of, write_record};
use anyhow::bail;
use case_text::{first_word, from_hexadecimal, write_hexadecimal};
use std::alloc::Global;
use std::fmt::Write;
use std::mem::forget;
use wal_log::{Record, RecordList, ScanFault, Scanned, entry_bytes, is_short, read_entry, scan};

fn write_encoded(
    alloc: Global,
    out: &mut String,
    entry: &Record,
    number: u64,
) -> anyhow::Result<()> {
    let lent = entry.lend();
    if !is_short(lent) {
        bail!("the record is too long");
    }
    let bytes = entry_bytes(alloc, lent, number)?;
    write_hexadecimal(out, bytes.as_slice())
}

fn encode(alloc: Global, out: &mut String, rest: &str) -> anyhow::Result<()> {
    let (number, text) = first_word(rest);
    let number = number.parse::<u64>()?;
    let entry = record_of(alloc, text)?;
    let told = write_encoded(alloc, out, &entry, number);
    forget(entry);
    told
}

fn write_fault(out: &mut String, fault: ScanFault) -> anyhow::Result<()> {
    match fault {
        ScanFault::Bad(rule, place) => write!(out, "rule {rule} at {place}")?,
        ScanFault::NoMemory => bail!("out of memory"),
    }
    Ok(())
}

fn write_found(out: &mut String, found: &Scanned) -> anyhow::Result<()> {
    let place = found.place;
    let end = found.end;
    let number = found.number;
    write!(out, "{place} to {end}, {number}: ")?;
    write_record(out, &found.entry)
}

fn write_entry(alloc: Global, out: &mut String, bytes: &[u8], place: u64) -> anyhow::Result<()> {
    match read_entry(alloc, bytes, place) {
        Ok(found) => {
            let told = write_found(out, &found);
            forget(found);
            told
        }
        Err(fault) => write_fault(out, fault),
    }
}

fn read(alloc: Global, out: &mut String, rest: &str) -> anyhow::Result<()> {
    let (place, bytes) = first_word(rest);
    let place = place.parse::<u64>()?;
    let bytes = from_hexadecimal(alloc, bytes)?;
    write_entry(alloc, out, &bytes, place)
}

// The answer to bytes, as a text.
fn told_of(alloc: Global, bytes: &[u8]) -> anyhow::Result<String> {
    let mut out = String::new(alloc);
    write_entry(alloc, &mut out, bytes, 0)?;
    Ok(out)
}

// How many of the shorter beginnings of the bytes answer so.
fn count_cut(alloc: Global, bytes: &[u8], wanted: &str) -> anyhow::Result<u64> {
    let mut count = 0u64;
    for long in 0..bytes.len() {
        let told = told_of(alloc, &bytes[..long])?;
        if told.as_str() == wanted {
            count = count.saturating_add(1);
        }
    }
    Ok(count)
}

fn cut(alloc: Global, out: &mut String, rest: &str) -> anyhow::Result<()> {
    let bytes = from_hexadecimal(alloc, rest)?;
    let wanted = told_of(alloc, &[])?;
    let count = count_cut(alloc, &bytes, wanted.as_str())?;
    let all = bytes.len();
    write!(out, "{count} of {all}, {wanted}")?;
    Ok(())
}

fn write_list(out: &mut String, list: &RecordList) -> anyhow::Result<()> {
    if list.as_slice().is_empty() {
        out.push_str("none")?;
    }
    let mut is_first = true;
    for found in list.as_slice() {
        out.push_str(if is_first { "" } else { " / " })?;
        is_first = false;
        write_found(out, found)?;
    }
    Ok(())
}

fn scan_by(alloc: Global, out: &mut String, rest: &str) -> anyhow::Result<()> {
    let bytes = from_hexadecimal(alloc, rest)?;
    match scan(alloc, &bytes) {
        Ok(list) => {
            let told = write_list(out, &list);
            forget(list);
            told
        }
        Err(fault) => write_fault(out, fault),
    }
}

pub fn call_entries(alloc: Global, out: &mut String, asked: &str) -> anyhow::Result<()> {
    let (call, rest) = first_word(asked);
    match call {
        "bytes" => encode(alloc, out, rest),
        "read" => read(alloc, out, rest),
        "cut" => cut(alloc, out, rest),
        "scan" => scan_by(alloc, out, rest),
        _ => bail!("no such call"),
    }
}
