//! Prints how many lock requests a second are answered over 10,000 held locks and over 10,000 more on other indexes, how
//! many locks a second one session takes in rising and in scattered order, and how many pays a second one stored row of a
//! view takes from 64 open transactions, at first and after 100,000 transactions have ended. A cost that grew with locks of
//! other indexes, with the order of locks or with ended transactions would show there.
#![tactic(auto)]

mod locks;
mod pays;
mod scattered;

use anyhow::bail;
use std::env;
use std::time::Duration;

/// How many a second there are of so many in this time.
fn per_second(count: u32, time: Duration) -> u128 {
    u128::from(count) * 1_000_000 / time.as_micros().max(1)
}

fn main(rt: HostRuntime) -> anyhow::Result<()> {
    let mut words = env::args(&rt)?;
    match words.nth(1) {
        Some(word) => match word.as_str().parse::<u32>() {
            Ok(rounds) => {
                locks::measure(&rt, rounds)?;
                scattered::measure(&rt)?;
                pays::measure(&rt, rounds)
            }
            Err(_) => bail!("a number of rounds was to come"),
        },
        None => {
            println!(rt; "usage: lock_bench ROUNDS")?;
            Ok(())
        }
    }
}
