//! Prints how many entries a second are put into sorted maps over pages, found there, walked over and taken away, beside
//! the standard library's `BTreeMap` with the same keys in the same order. A cost that grew with the number of entries, and
//! not with its logarithm, would show from one size to the next.
#![tactic(auto)]

mod pages;
mod subject;
mod tree;

use anyhow::bail;
use pages::Pages;
use std::env;
use std::time::{Duration, Instant};
use subject::{Order, Subject, key};
use tree::Tree;

/// How many entries there are.
const SIZES: [u32; 3] = [1000, 30_000, 400_000];

/// The least times of some rounds.
#[derive(Clone, Copy)]
struct Times {
    put: Duration,
    get: Duration,
    walk: Duration,
    take: Duration,
}

/// How many a second there are of so many in this time.
fn per_second(count: u32, time: Duration) -> u128 {
    u128::from(count) * 1_000_000 / time.as_micros().max(1)
}

fn put_all<S: Subject>(
    rt: &HostRuntime,
    subject: &mut S,
    order: Order,
    count: u32,
) -> anyhow::Result<Duration> {
    let start = Instant::now(rt)?;
    for i in 0..count {
        subject.put(rt.alloc(), &key(order, i))?;
    }
    Ok(start.elapsed(rt)?)
}

fn get_all<S: Subject>(
    rt: &HostRuntime,
    subject: &S,
    order: Order,
    count: u32,
) -> anyhow::Result<Duration> {
    let start = Instant::now(rt)?;
    for i in 0..count {
        if !subject.has(&key(order, i)) {
            bail!("an entry is not found");
        }
    }
    Ok(start.elapsed(rt)?)
}

fn walk<S: Subject>(rt: &HostRuntime, subject: &S, count: u32) -> anyhow::Result<Duration> {
    let start = Instant::now(rt)?;
    if subject.walk() != count {
        bail!("a walk has not all entries");
    }
    Ok(start.elapsed(rt)?)
}

fn take_all<S: Subject>(
    rt: &HostRuntime,
    subject: &mut S,
    order: Order,
    count: u32,
) -> anyhow::Result<Duration> {
    let start = Instant::now(rt)?;
    for i in 0..count {
        subject.take(&key(order, i));
    }
    Ok(start.elapsed(rt)?)
}

/// Fills what is empty, asks it, and empties it again.
fn best<S: Subject>(
    rt: &HostRuntime,
    subject: &mut S,
    order: Order,
    count: u32,
    rounds: u32,
) -> anyhow::Result<Times> {
    let mut best = Times {
        put: Duration::MAX,
        get: Duration::MAX,
        walk: Duration::MAX,
        take: Duration::MAX,
    };
    for _ in 0..rounds {
        best.put = best.put.min(put_all(rt, subject, order, count)?);
        best.get = best.get.min(get_all(rt, subject, order, count)?);
        best.walk = best.walk.min(walk(rt, subject, count)?);
        best.take = best.take.min(take_all(rt, subject, order, count)?);
    }
    Ok(best)
}

fn print_line(
    rt: &HostRuntime,
    what: &str,
    count: u32,
    pages: Duration,
    tree: Duration,
) -> anyhow::Result<()> {
    let here = per_second(count, pages);
    let there = per_second(count, tree);
    let percent = here.saturating_mul(100) / there.max(1);
    println!(rt; "  {what}: {here} a second, {there} of the BTreeMap ({percent} percent)")?;
    Ok(())
}

fn measure(rt: &HostRuntime, order: Order, count: u32, rounds: u32) -> anyhow::Result<()> {
    let mut pages = Pages::new(rt.alloc())?;
    let here = best(rt, &mut pages, order, count, rounds)?;
    let mut tree = Tree::new(rt.alloc());
    let there = best(rt, &mut tree, order, count, rounds)?;
    let how = match order {
        Order::Rising => "rising",
        Order::Scattered => "scattered",
    };
    println!(rt; "{count} entries in {how} order:")?;
    print_line(rt, "inserts", count, here.put, there.put)?;
    print_line(rt, "gets", count, here.get, there.get)?;
    print_line(rt, "steps of a walk", count, here.walk, there.walk)?;
    print_line(rt, "removals", count, here.take, there.take)
}

fn measure_all(rt: &HostRuntime, rounds: u32) -> anyhow::Result<()> {
    for count in SIZES {
        for order in [Order::Rising, Order::Scattered] {
            measure(rt, order, count, rounds)?;
        }
    }
    Ok(())
}

fn main(rt: HostRuntime) -> anyhow::Result<()> {
    let mut words = env::args(&rt)?;
    match words.nth(1) {
        Some(word) => match word.as_str().parse::<u32>() {
            Ok(rounds) => measure_all(&rt, rounds),
            Err(_) => bail!("a number of rounds was to come"),
        },
        None => {
            println!(rt; "usage: maps_bench ROUNDS")?;
            Ok(())
        }
    }
}
