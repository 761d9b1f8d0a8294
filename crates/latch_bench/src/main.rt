//! Prints how many turns a second 1, 2, 4 and 16 threads take on one latch, beside a standard `Mutex` round the same value.
//! What the threads of a run add is compared with what the value has at the end.
#![tactic(auto)]

mod tally;
mod turns;

use anyhow::bail;
use std::env;
use std::time::Duration;

/// How many threads take turns.
const THREADS: [u32; 4] = [1, 2, 4, 16];

/// How many a second there are of so many in this time.
fn per_second(count: u64, time: Duration) -> u128 {
    u128::from(count) * 1_000_000 / time.as_micros().max(1)
}

fn main(rt: HostRuntime) -> anyhow::Result<()> {
    let mut words = env::args(&rt)?;
    let Some(word) = words.nth(1) else {
        println!(rt; "usage: latch_bench TURNS")?;
        return Ok(());
    };
    let Ok(turns) = word.as_str().parse::<u32>() else {
        bail!("a number of turns was to come");
    };
    println!(rt; "turns a second, of {turns} turns of each thread:")?;
    for threads in THREADS {
        let count = u64::from(threads) * u64::from(turns);
        let latch = per_second(count, turns::with_latch(&rt, rt.alloc(), threads, turns)?);
        let mutex = per_second(count, turns::with_mutex(&rt, rt.alloc(), threads, turns)?);
        println!(rt; "  {threads:>2} threads: {latch:>9} by the latch, {mutex:>9} by a Mutex")?;
    }
    Ok(())
}
