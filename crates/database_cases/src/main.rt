//! Runs the program on databases that lie on disks in memory, and prints how many rows each table has and what came otherwise.
//!
//! A line `== NAME` begins a table, on an outside without disks. Behind the name there may stand `, disk K` or `, outside K`:
//! then call K of each disk fails, or call K of the outside, counted from 1. A line that begins with `#` is a remark.
//!
//! `$ WORDS` runs the program with these words, and the lines `> TEXT` below it are its input, each with an LF behind it. Any
//! other lines there are what it prints, and where it ends otherwise than Done, a line `! STATUS` comes last. `% CHANGE`
//! changes a disk (`changes`). What is typed and the changes are expanded, and escapes stand for bytes (`case_text`).
//!
//! In a table whose name begins with `each: ` the lines before the first row begin every row. A row is changes with `; `
//! between them, or `nothing`, then ` => ` and what the last command prints behind them, with `; ` between its lines, or
//! `nothing`. A command that refuses an image leaves the disk as it was, so the changes are taken back behind it and the
//! next row goes on there; any other row is the last on its outside.
//!
//! A table whose name begins with `disk calls: ` is run on an outside of its own for each number of a call of a disk that is
//! to fail, from 1 until no call fails (`outcomes`). Each line `% outcome` begins what may come of all its commands, a line `$`
//! before what each one prints. The outcomes come in that order, each at one number at least, and the last where no call
//! fails.
//!
//! A table whose name begins with `crashes: ` has one disk, `x.iv`, and is run for each number of a call of it: there a crash
//! comes, with each of the forms in which it may leave what was not synced, and the last part runs on what is left. An outcome is
//! what the parts have printed up to the crash and what the last one prints behind it; for one form they come in their order.
//! Where the name begins with `crashes twice: ` and a further outcome begins, with all that was written, the last part prints
//! the same where a second crash comes at any call of its own before.
#![tactic(auto)]

mod bytes;
mod cases;
mod changes;
mod crashes;
mod outcomes;
mod parts;
mod running;

use cases::Cases;

fn main(rt: HostRuntime) -> anyhow::Result<()> {
    let mut cases = Cases::new(rt.alloc());
    for line in rt.lines(rt.alloc()) {
        let told = cases.take(rt.alloc(), line?.as_str())?;
        print!(rt; "{told}")?;
    }
    let told = cases.end(rt.alloc())?;
    print!(rt; "{told}")?;
    Ok(())
}
