//! Turns of some threads, on a latch and under a `Mutex`.
ghost use Rattle.std.specs.Prelude.{◌≡◌, ◌<◌, All, IfOk};
ghost use Rattle.turn_latch.specs.Words.{latch_of, seat_latch, knows};

use crate::tally::{AddOne, Tally, Tell};
use anyhow::bail;
use std::alloc::{AllocError, Global};
use std::rt::Clock;
use std::sync::{Mutex, Wait};
use std::thread;
use std::thread::{Threads, for_each_mut};
use std::time::{Duration, Instant};
use turn_latch::{Busy, Latch, Seat};

/// Takes one turn, and asks for it until it is had.
fn take_one<R: Wait>(rt: &R, latch: &Latch<Tally>, seat: &mut Seat<Tally>)
    requires { seat_latch seat.old ≡ latch_of latch.now }
    ensures { seat_latch seat.new ≡ seat_latch seat.old }
{
    for _ in rt.forever() {
        let work = AddOne {
            seat: seat.number(),
        };
        match latch.try_turn(seat, work) {
            Ok(()) => return,
            Err(Busy(_)) => thread::yield_now(),
        }
    }
    unreachable!()
}

fn take_turns<R: Wait>(rt: &R, latch: &Latch<Tally>, seat: &mut Seat<Tally>, turns: u32)
    requires { seat_latch seat.old ≡ latch_of latch.now }
    ensures { seat_latch seat.new ≡ seat_latch seat.old }
{
    for _ in 0..turns {
        take_one(rt, latch, seat);
    }
}

/// Each seat takes its turns, in a thread.
fn take_all<R: Threads + Wait + Sync>(
    rt: &R,
    latch: &Latch<Tally>,
    seats: &mut [Seat<Tally>],
    turns: u32,
)
    requires { All (λ s. seat_latch s ≡ latch_of latch.now) seats.old }
{
    for_each_mut(
        rt,
        seats,
        64,
        &|_, seat: &mut Seat<Tally>|
            requires { seat_latch seat.now ≡ latch_of latch.now }
        { take_turns(rt, latch, seat, turns) },
    );
}

/// So many seats, at most 64.
fn seats(
    alloc: Global,
    latch: &Latch<Tally>,
    first: &mut Seat<Tally>,
    count: u32,
) -> Result<Vec<Seat<Tally>>, AllocError>
    requires latch { seat_latch first.old ≡ latch_of latch.now }
    requires first { (knows first.old).number ≡ 0 }
    ensures latch { seat_latch first.new ≡ seat_latch first.old }
    ensures all { IfOk result (λ v. All (λ s. seat_latch s ≡ latch_of latch.now) v.items) }
{
    let mut seats = Vec::new(alloc);
    for _ in 0..count {
        if first.made() >= 64 {
            break;
        }
        seats.push(latch.split(first))?;
    }
    Ok(seats)
}

/// The time that the turns take on a latch.
pub fn with_latch<R: Threads + Wait + Clock + Sync>(
    rt: &R,
    alloc: Global,
    threads: u32,
    turns: u32,
) -> anyhow::Result<Duration> {
    let Ok((latch, mut first)) = Latch::new(alloc, Tally { count: 0 }) else {
        bail!("no memory");
    };
    let mut seats = seats(alloc, &latch, &mut first, threads)?;
    let start = Instant::now(rt)?;
    take_all(rt, &latch, &mut seats, turns);
    let time = start.elapsed(rt)?;
    let work = Tell {
        seat: first.number(),
    };
    match latch.try_turn(&mut first, work) {
        Ok(count) if count == u64::from(threads) * u64::from(turns) => Ok(time),
        _ => bail!("turns are lost or doubled"),
    }
}

/// Takes the lock as often as a thread takes turns.
fn take_locks<R: Wait>(rt: &R, tally: &Mutex<Tally>, turns: u32) {
    for _ in 0..turns {
        tally.lock(rt).add();
    }
}

fn lock_all<R: Threads + Wait + Sync>(
    rt: &R,
    tally: &Mutex<Tally>,
    workers: &mut [u32],
    turns: u32,
) {
    for_each_mut(
        rt,
        workers,
        64,
        &|_, _: &mut u32| take_locks(rt, tally, turns),
    );
}

/// The time that the turns take under a `Mutex`.
pub fn with_mutex<R: Threads + Wait + Clock + Sync>(
    rt: &R,
    alloc: Global,
    threads: u32,
    turns: u32,
) -> anyhow::Result<Duration> {
    let tally = Mutex::new(Tally { count: 0 });
    let mut workers = Vec::new(alloc);
    for worker in 0..threads {
        workers.push(worker)?;
    }
    let start = Instant::now(rt)?;
    lock_all(rt, &tally, &mut workers, turns);
    let time = start.elapsed(rt)?;
    if tally.into_inner().count != u64::from(threads) * u64::from(turns) {
        bail!("turns are lost or doubled");
    }
    Ok(time)
}
