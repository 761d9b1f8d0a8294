//! Requests of locks, one lock each, by session 64.
ghost use Rattle.iv_meaning.specs.Escrow.{IsSession};

use crate::per_second;
use anyhow::bail;
use iv_types::{Bytes, Interval, LockMode, NoMemory, Want, WantList};
use lock_manager::{LockAnswer, LockTable};
use row_codec::point;
use std::alloc::Global;
use std::time::{Duration, Instant};

/// How many locks are held on four indexes, by all sessions in turn. Session `n % 64 + 1` has lock `n`, on the key
/// `16 * n`; one in eight of its locks on an index is a range of eight keys.
const LOCKS: u32 = 10_000;

/// How many requests a round has.
const REQUESTS: u32 = 1000;

const ASKER: u32 = 64;

/// The first index of the locks that requests meet, and that of those on other indexes.
const FIRST: u32 = 1;

const OTHER: u32 = 5;

/// What is asked for on the index 1: a point or a range, of which other sessions hold something or nothing.
#[derive(Clone, Copy)]
struct Asked {
    range: bool,
    held: bool,
}

pub fn key(alloc: Global, number: u32) -> Result<Bytes, NoMemory> {
    Ok(Bytes::from_vec(Vec::from_slice(alloc, &number.to_be_bytes())?))
}

fn range(alloc: Global, low: u32, high: u32) -> Result<Interval, NoMemory> {
    Ok(Interval {
        low: key(alloc, low)?,
        high: Some(key(alloc, high)?),
    })
}

/// A lock that is held.
fn lock(alloc: Global, number: u32, first: u32) -> Result<Want, NoMemory> {
    let low = number.wrapping_mul(16);
    let interval = if number / 256 % 8 == 7 {
        range(alloc, low, low.wrapping_add(8))?
    } else {
        point(alloc, &key(alloc, low)?)?
    };
    Ok(Want {
        index: first.wrapping_add(number / 64 % 4),
        interval,
        mode: LockMode::Exclusive,
    })
}

/// Whether a request is granted. The room that it takes is made first.
pub fn ask(table: &mut LockTable, session: u32, wants: WantList) -> anyhow::Result<bool>
    requires { IsSession session }
{
    let Ok(more) = u32::try_from(wants.as_slice().len()) else {
        bail!("too many locks");
    };
    table.reserve(session, more)?;
    match table.request(session, wants) {
        LockAnswer::Granted => Ok(true),
        LockAnswer::Blocked(_) => Ok(false),
    }
}

/// The locks of a session.
fn locks_of(alloc: Global, session: u32, first: u32) -> Result<WantList, NoMemory> {
    let mut wants = WantList::new(alloc);
    for number in 0..LOCKS {
        if number % 64 + 1 == session {
            wants.push(lock(alloc, number, first)?)?;
        }
    }
    Ok(wants)
}

fn hold(alloc: Global, table: &mut LockTable, session: u32, first: u32) -> anyhow::Result<()>
    requires { IsSession session }
{
    let wants = locks_of(alloc, session, first)?;
    if !ask(table, session, wants)? {
        bail!("a lock is held already");
    }
    Ok(())
}

fn hold_all(alloc: Global, table: &mut LockTable, first: u32) -> anyhow::Result<()> {
    for session in 1..65 {
        hold(alloc, table, session, first)?;
    }
    Ok(())
}

fn interval_of(alloc: Global, number: u32, asked: Asked) -> Result<Interval, NoMemory> {
    let low = if asked.held {
        (number % 39 * 256 + number % 63) * 16
    } else {
        number % REQUESTS * 160 + 9
    };
    if !asked.range {
        return point(alloc, &key(alloc, low)?);
    }
    let high = if asked.held { low + 4096 } else { low + 6 };
    range(alloc, low, high)
}

/// The requests of a round.
fn requests(alloc: Global, asked: Asked) -> Result<Vec<WantList>, NoMemory> {
    let mut requests = Vec::new(alloc);
    for number in 0..REQUESTS {
        let mut wants = WantList::new(alloc);
        wants.push(Want {
            index: FIRST,
            interval: interval_of(alloc, number, asked)?,
            mode: LockMode::Exclusive,
        })?;
        requests.push(wants)?;
    }
    Ok(requests)
}

/// Asks for each, and looks whether it is granted where no other session holds anything of it.
fn ask_all(table: &mut LockTable, requests: Vec<WantList>, asked: Asked) -> anyhow::Result<()> {
    for wants in requests {
        if ask(table, ASKER, wants)? == asked.held {
            bail!("a request is not answered as it is to be");
        }
    }
    Ok(())
}

/// The least time of some rounds. The asker has its first locks alone at the beginning of each.
fn best(
    rt: &HostRuntime,
    table: &mut LockTable,
    asked: Asked,
    others: bool,
    rounds: u32,
) -> anyhow::Result<Duration> {
    let mut best = Duration::MAX;
    for _ in 0..rounds {
        let requests = requests(rt.alloc(), asked)?;
        let start = Instant::now(rt)?;
        ask_all(table, requests, asked)?;
        best = best.min(start.elapsed(rt)?);
        table.release_all(ASKER);
        hold(rt.alloc(), table, ASKER, FIRST)?;
        if others {
            hold(rt.alloc(), table, ASKER, OTHER)?;
        }
    }
    Ok(best)
}

fn measure_all(
    rt: &HostRuntime,
    table: &mut LockTable,
    others: bool,
    rounds: u32,
) -> anyhow::Result<()> {
    for range in [false, true] {
        for held in [false, true] {
            let time = best(rt, table, Asked { range, held }, others, rounds)?;
            let speed = per_second(REQUESTS, time);
            let what = if range { "ranges" } else { "points" };
            let how = if held { "blocked" } else { "granted" };
            println!(rt; "  {what}: {speed} a second are {how}")?;
        }
    }
    Ok(())
}

pub fn measure(rt: &HostRuntime, rounds: u32) -> anyhow::Result<()> {
    let mut table = LockTable::new(rt.alloc())?;
    hold_all(rt.alloc(), &mut table, FIRST)?;
    println!(rt; "lock requests over {LOCKS} locks:")?;
    measure_all(rt, &mut table, false, rounds)?;
    hold_all(rt.alloc(), &mut table, OTHER)?;
    println!(rt; "with {LOCKS} more on other indexes:")?;
    measure_all(rt, &mut table, true, rounds)
}
