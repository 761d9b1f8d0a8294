//! Runs scripts from end to end, over a source and a sink in memory, and prints how many lines each table has and what came
//! otherwise.
//!
//! A line `== NAME` begins a table. Its lines are a script (`scripts`), or rows of what is asked, ` => ` and what comes of
//! it (`rows`). A line `< NAME` stands for a script of its own, in the file of that name of `data/`.
#![tactic(auto)]

mod reads;
mod rows;
mod running;
mod scripts;

use scripts::Scripts;
use std::fs;

fn take(rt: &HostRuntime, scripts: &mut Scripts, line: &str) -> anyhow::Result<String> {
    match line.strip_prefix("< ") {
        Some(name) => {
            let text = fs::read_to_string(rt, name)?;
            scripts.take_file(rt.alloc(), name, text.as_str())
        }
        None => scripts.take(rt.alloc(), line),
    }
}

fn main(rt: HostRuntime) -> anyhow::Result<()> {
    let mut scripts = Scripts::new(rt.alloc());
    for line in rt.lines(rt.alloc()) {
        let told = take(&rt, &mut scripts, line?.as_str())?;
        print!(rt; "{told}")?;
    }
    let told = scripts.end(rt.alloc())?;
    print!(rt; "{told}")?;
    Ok(())
}
