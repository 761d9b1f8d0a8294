//! Prints how many statements a second are read, how many are printed and how many are bound, and how many bytes a second of
//! INSERT statements of growing length are read: a cost that grew faster than the text would show there.
#![tactic(auto)]

use anyhow::bail;
use catalog_text::Definitions;
use iv_types::{Bound, Catalog, Statement};
use sql_bind::bind;
use sql_parse::parse;
use sql_print::statement_text;
use std::env;
use std::time::{Duration, Instant};

/// What is defined where the statements are bound.
const DEFINITIONS: [&str; 2] = [
    "CREATE TABLE sale (id INT, shop INT, amount HUGE, note TEXT, PRIMARY KEY (id, shop))",
    "CREATE TABLE store (id INT, region TEXT, PRIMARY KEY (id))",
];

/// One statement of each form, with what its rules allow.
const STATEMENTS: [&str; 12] = [
    "CREATE TABLE deal (id INT, shop INT, amount HUGE, note TEXT, PRIMARY KEY (id, shop))",
    "CREATE INDEX sale_shop ON sale (shop, amount)",
    "CREATE INDEXED VIEW by_shop AS SELECT shop, COUNT(*) AS n, SUM(amount) AS total FROM sale GROUP BY shop",
    "INSERT INTO sale VALUES (1, 7, 10, 'one'), (2, 7, - (5 + 6) * 2, 'it''s'), (3, 9, -4, '')",
    "UPDATE sale SET amount = amount * 2 + 1, note = 'changed' WHERE shop = 7 AND NOT (id < 3 OR id >= 10)",
    "DELETE FROM sale WHERE note <> 'kept' AND amount - 1 <= 0",
    "SELECT * FROM sale",
    "SELECT s.region, SUM(amount) AS total FROM sale JOIN store AS s ON shop = s.id WHERE amount > 0 GROUP BY region ORDER BY total DESC, 1",
    "BEGIN SNAPSHOT",
    "SAVEPOINT before",
    "ROLLBACK TO before",
    "COMMIT",
];

/// How often the statements are read in a round.
const TIMES: u32 = 200;

// A statement is let go here alone, which is costly to prove.
fn let_go(statement: Statement) {
    let _ = statement;
}

/// Reads one statement, and lets it go.
fn read_one(rt: &HostRuntime, text: &str) -> anyhow::Result<()> {
    match parse(rt.alloc(), text) {
        Ok(statement) => {
            let_go(statement);
            Ok(())
        }
        Err(_) => bail!("a statement was refused"),
    }
}

/// Reads all statements so many times.
fn read_all(rt: &HostRuntime) -> anyhow::Result<()> {
    for _ in 0..TIMES {
        for text in STATEMENTS {
            read_one(rt, text)?;
        }
    }
    Ok(())
}

/// What is done with a statement that was read.
#[derive(Clone, Copy)]
enum Work<'a> {
    Print,
    Bind(&'a Catalog),
}

// A bound statement is let go here alone, which is costly to prove.
fn let_go_bound(bound: Bound) {
    let _ = bound;
}

/// Binds one statement, and lets go what it is bound to.
fn bind_one(rt: &HostRuntime, catalog: &Catalog, statement: &Statement) -> anyhow::Result<()> {
    match bind(rt.alloc(), catalog, statement) {
        Ok(bound) => {
            let_go_bound(bound);
            Ok(())
        }
        Err(_) => bail!("a statement was refused"),
    }
}

/// Does it once.
fn work_once(rt: &HostRuntime, work: Work<'_>, statement: &Statement) -> anyhow::Result<()> {
    match work {
        Work::Print => {
            statement_text(rt.alloc(), statement)?;
            Ok(())
        }
        Work::Bind(catalog) => bind_one(rt, catalog, statement),
    }
}

/// Does it so many times.
fn work_often(rt: &HostRuntime, work: Work<'_>, statement: &Statement) -> anyhow::Result<()> {
    for _ in 0..TIMES {
        work_once(rt, work, statement)?;
    }
    Ok(())
}

/// The least time of some rounds in which it is done so many times.
fn best_working(
    rt: &HostRuntime,
    work: Work<'_>,
    statement: &Statement,
    rounds: u32,
) -> anyhow::Result<Duration> {
    let mut best = Duration::MAX;
    for _ in 0..rounds {
        let start = Instant::now(rt)?;
        work_often(rt, work, statement)?;
        best = best.min(start.elapsed(rt)?);
    }
    Ok(best)
}

/// The same of a text's statement.
fn working_on(
    rt: &HostRuntime,
    work: Work<'_>,
    text: &str,
    rounds: u32,
) -> anyhow::Result<Duration> {
    match parse(rt.alloc(), text) {
        Ok(statement) => {
            let best = best_working(rt, work, &statement, rounds);
            let_go(statement);
            best
        }
        Err(_) => bail!("a statement was refused"),
    }
}

/// The same of all statements.
fn working(rt: &HostRuntime, work: Work<'_>, rounds: u32) -> anyhow::Result<Duration> {
    let mut whole = Duration::from_secs(0);
    for text in STATEMENTS {
        whole = whole.saturating_add(working_on(rt, work, text, rounds)?);
    }
    Ok(whole)
}

/// Defines what the statements speak of.
fn define(rt: &HostRuntime, definitions: &mut Definitions) -> anyhow::Result<()> {
    for text in DEFINITIONS {
        definitions.give(rt.alloc(), text)?;
    }
    Ok(())
}

/// The same of binding them.
fn binding(rt: &HostRuntime, rounds: u32) -> anyhow::Result<Duration> {
    let mut definitions = Definitions::new(rt.alloc());
    let whole = match define(rt, &mut definitions) {
        Ok(()) => working(rt, Work::Bind(&definitions.catalog), rounds),
        Err(error) => Err(error),
    };
    definitions.forgotten();
    whole
}

fn per_second(count: u128, time: Duration) -> u128 {
    count.saturating_mul(1_000_000) / time.as_micros().max(1)
}

/// An INSERT of so many rows beside a first one.
fn insertion(rt: &HostRuntime, rows: u32) -> anyhow::Result<String> {
    let mut text = String::new(rt.alloc());
    text.push_str("INSERT INTO t VALUES (1)")?;
    for _ in 0..rows {
        text.push_str(", (1, 'forty bytes of a text, so that it is long', -12345678)")?;
    }
    Ok(text)
}

/// Prints how fast an INSERT of so many rows is read.
fn measure_insertion(rt: &HostRuntime, rows: u32, rounds: u32) -> anyhow::Result<()> {
    let text = insertion(rt, rows)?;
    let mut best = Duration::MAX;
    for _ in 0..rounds {
        let start = Instant::now(rt)?;
        read_one(rt, text.as_str())?;
        best = best.min(start.elapsed(rt)?);
    }
    let bytes = text.len() as u128;
    let speed = per_second(bytes, best);
    println!(rt; "an INSERT of {bytes} bytes: {speed} bytes a second are read")?;
    Ok(())
}

fn measure(rt: &HostRuntime, rounds: u32) -> anyhow::Result<()> {
    let mut best = Duration::MAX;
    for _ in 0..rounds {
        let start = Instant::now(rt)?;
        read_all(rt)?;
        best = best.min(start.elapsed(rt)?);
    }
    let count = STATEMENTS.len() as u128 * u128::from(TIMES);
    let reading = per_second(count, best);
    println!(rt; "{reading} statements a second are read")?;
    let printed = per_second(count, working(rt, Work::Print, rounds)?);
    println!(rt; "{printed} statements a second are printed")?;
    let bound = per_second(count, binding(rt, rounds)?);
    println!(rt; "{bound} statements a second are bound")?;
    for rows in [124u32, 249, 499, 999] {
        measure_insertion(rt, rows, rounds)?;
    }
    Ok(())
}

fn main(rt: HostRuntime) -> anyhow::Result<()> {
    let mut words = env::args(&rt)?;
    match words.nth(1) {
        Some(word) => match word.as_str().parse::<u32>() {
            Ok(rounds) => measure(&rt, rounds),
            Err(_) => bail!("a number of rounds was to come"),
        },
        None => {
            println!(rt; "usage: language_bench ROUNDS")?;
            Ok(())
        }
    }
}
