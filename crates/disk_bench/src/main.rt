//! Prints how many flushes a second a disk in a file does, beside the same loop over the file itself, and how long a
//! publish of some changed pages takes. A flush is a write and a sync of 4 KiB and the same again, as in a log.
#![tactic(auto)]

use anyhow::bail;
use disk_io::{Disk, FileDisk};
use iv_types::Failed;
use page_store::{HeaderFacts, PageStore};
use std::fs::{File, OpenOptions};
use std::os::unix::fs::FileExt;
use std::time::{Duration, Instant};
use std::{env, fs, io};

const BLOCK: [u8; 4096] = [7; 4096];

/// How many flushes a round has, and how many rounds there are. The two loops take turns.
const FLUSHES: u64 = 200;

const ROUNDS: u32 = 10;

const SIZE: u64 = 8192;

const PAGES: u32 = 4096;

const AREA: u64 = 65_536;

const IMAGE: u64 = 278_528 + 2 * AREA + 16_384 * 4096;

fn flush_disk(disk: &mut FileDisk) -> Result<(), Failed> {
    if disk.size() < SIZE {
        return Err(Failed);
    }
    disk.write_at(4096, &BLOCK)?;
    disk.sync()?;
    if disk.size() < SIZE {
        return Err(Failed);
    }
    disk.write_at(0, &BLOCK)?;
    disk.sync()
}

fn flush_file(file: &File) -> io::Result<()> {
    file.write_all_at(&BLOCK, 4096)?;
    file.sync_all()?;
    file.write_all_at(&BLOCK, 0)?;
    file.sync_all()
}

fn per_second(time: Duration) -> u128 {
    let micros = time.as_micros();
    u128::from(FLUSHES) * 1_000_000 / micros.max(1)
}

/// Prints the rates of the best round of each loop.
fn measure_flushes(rt: &HostRuntime, path: &str) -> anyhow::Result<()> {
    let mut disk = FileDisk::create(rt, path, SIZE)?;
    let file = OpenOptions::new().write(true).open(rt, path)?;
    let mut best_disk = Duration::MAX;
    let mut best_file = Duration::MAX;
    for _ in 0..ROUNDS {
        let start = Instant::now(rt)?;
        for _ in 0..FLUSHES {
            flush_disk(&mut disk)?;
        }
        best_disk = best_disk.min(start.elapsed(rt)?);
        let start = Instant::now(rt)?;
        for _ in 0..FLUSHES {
            flush_file(&file)?;
        }
        best_file = best_file.min(start.elapsed(rt)?);
    }
    println!(rt; "disk {} flushes a second", per_second(best_disk))?;
    println!(rt; "file {} flushes a second", per_second(best_file))?;
    fs::remove_file(rt, path)?;
    Ok(())
}

/// Gives the first pages other bytes.
fn change_pages(store: &mut PageStore, pages: u32, byte: u8) {
    for n in 0..pages {
        if n < store.pages() {
            store.change(n).fill(byte);
            store.set_stored(n, true);
        }
    }
}

fn publish(store: &mut PageStore, disk: &mut FileDisk, number: u64) -> bool {
    if store.pages() != PAGES || disk.size() != IMAGE {
        return false;
    }
    let facts = HeaderFacts {
        format: 1,
        number,
        commits: 0,
        next_entry: 1,
        area: (number % 2) as u8,
    };
    store
        .publish(disk, &facts, &[0xA5, 0, 0, 0, 1, 0, 0])
        .is_ok()
}

fn measure_publishes(rt: &HostRuntime, path: &str) -> anyhow::Result<()> {
    let mut disk = FileDisk::create(rt, path, IMAGE)?;
    let mut store = PageStore::new(rt.alloc(), PAGES)?;
    let counts = [4000u32, 4000, 1, 1, 100, 100, 1000, 4000];
    let mut number = 1u64;
    let mut byte = 1u8;
    for pages in counts {
        change_pages(&mut store, pages, byte);
        let start = Instant::now(rt)?;
        if !publish(&mut store, &mut disk, number) {
            bail!("a publish failed");
        }
        let micros = start.elapsed(rt)?.as_micros();
        println!(rt; "publish of {pages} changed pages: {micros} microseconds")?;
        number = number.saturating_add(1);
        byte = byte.saturating_add(1);
    }
    fs::remove_file(rt, path)?;
    Ok(())
}

fn main(rt: HostRuntime) -> anyhow::Result<()> {
    let mut words = env::args(&rt)?;
    match words.nth(1) {
        Some(path) => {
            measure_flushes(&rt, path.as_str())?;
            measure_publishes(&rt, path.as_str())
        }
        None => {
            println!(rt; "usage: disk_bench FILE")?;
            Ok(())
        }
    }
}
