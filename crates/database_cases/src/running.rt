//! The program, run on an outside in memory.
use case_text::write_escaped;
use iv_types::{CallList, Sequence};
use line_wire::{ListSink, ListSource};
use outside::ListOutside;
use std::alloc::Global;
use std::fmt::Write;
use std::str;
use view_server::{Status, run};

/// The greatest output of a run, in bytes.
const ROOM: u64 = 1 << 20;

/// Room for the calls that a disk records, in bytes: a checkpoint writes a header of 139,264 bytes, and pages of 8,192.
const DISK_ROOM: u64 = 1 << 24;

fn calls(alloc: Global, number: u64) -> anyhow::Result<CallList> {
    let mut numbers = Vec::new(alloc);
    numbers.push(number)?;
    Ok(Sequence::from_vec(numbers))
}

/// An outside without disks, of which this call fails, and this call of each of its disks; 0 for none.
///
/// # Errors
///
/// Where memory is wanting.
pub fn new_outside(alloc: Global, disk: u64, outside: u64) -> anyhow::Result<ListOutside> {
    let disk = calls(alloc, disk)?;
    let outside = calls(alloc, outside)?;
    Ok(ListOutside::new(alloc, DISK_ROOM, disk, outside))
}

fn all_words(alloc: Global, texts: &str) -> anyhow::Result<Vec<String>> {
    let mut words = Vec::new(alloc);
    for text in texts.split(' ') {
        words.push(String::from_str(alloc, text)?)?;
    }
    Ok(words)
}

// The lines that were written, and how the run ended where it was not Done.
fn told(alloc: Global, status: Status, written: &[u8]) -> anyhow::Result<String> {
    let mut told = String::new(alloc);
    match str::from_utf8(written) {
        Ok(text) => told.push_str(text)?,
        Err(_) => write_escaped(&mut told, written)?,
    }
    if status != Status::Done {
        writeln!(told, "! {status:?}")?;
    }
    Ok(told)
}

/// Runs the program with these words on an input, and tells what it printed and how it ended.
///
/// # Errors
///
/// Where memory is wanting.
pub fn run_words(
    alloc: Global,
    outside: &mut ListOutside,
    texts: &str,
    input: &[u8],
) -> anyhow::Result<String> {
    let words = all_words(alloc, texts)?;
    let input = input.to_vec(alloc)?;
    let mut source = ListSource::new(Sequence::from_vec(input), calls(alloc, 0)?);
    let mut sink = ListSink::new(alloc, ROOM, calls(alloc, 0)?)?;
    let status = run(alloc, &words, outside, &mut source, &mut sink);
    told(alloc, status, sink.written())
}
