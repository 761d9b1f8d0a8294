//! Locks of one key each that session 1 takes alone, one after the other, in rising and in scattered order.
use crate::locks::{ask, key};
use crate::per_second;
use anyhow::bail;
use iv_types::{LockMode, NoMemory, Want, WantList};
use lock_manager::LockTable;
use row_codec::point;
use std::alloc::Global;
use std::time::{Duration, Instant};

/// The keys are the numbers from 0 on, multiplied by this in scattered order, which makes no two the same.
const SCATTER: u32 = 2_654_435_761;

fn want(alloc: Global, number: u32) -> Result<WantList, NoMemory> {
    let mut wants = WantList::new(alloc);
    wants.push(Want {
        index: 1,
        interval: point(alloc, &key(alloc, number)?)?,
        mode: LockMode::Exclusive,
    })?;
    Ok(wants)
}

fn wants(alloc: Global, count: u32, factor: u32) -> Result<Vec<WantList>, NoMemory> {
    let mut all = Vec::new(alloc);
    for number in 0..count {
        all.push(want(alloc, number.wrapping_mul(factor))?)?;
    }
    Ok(all)
}

fn take_all(table: &mut LockTable, all: Vec<WantList>) -> anyhow::Result<()> {
    for wants in all {
        if !ask(table, 1, wants)? {
            bail!("a lock is held by another session");
        }
    }
    Ok(())
}

/// The time that so many locks take.
fn time(rt: &HostRuntime, count: u32, factor: u32) -> anyhow::Result<Duration> {
    let mut table = LockTable::new(rt.alloc())?;
    let all = wants(rt.alloc(), count, factor)?;
    let start = Instant::now(rt)?;
    take_all(&mut table, all)?;
    let time = start.elapsed(rt)?;
    Ok(time)
}

pub fn measure(rt: &HostRuntime) -> anyhow::Result<()> {
    println!(rt; "locks that one session takes one after the other:")?;
    for count in [10_000u32, 100_000] {
        let rising = per_second(count, time(rt, count, 1)?);
        let scattered = per_second(count, time(rt, count, SCATTER)?);
        println!(rt;
            "  of {count}: {rising} a second in rising order, {scattered} in scattered order"
        )?;
    }
    Ok(())
}
