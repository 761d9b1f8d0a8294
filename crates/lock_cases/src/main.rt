//! Runs calls of what sessions wait for, hold and pay, and prints how many rows each table has and which of them answer
//! something else.
//!
//! The name of a table begins with what its rows call: `waits`, `bounds`, `locks` or `pays`, and a colon. What each of them
//! is given and asked stands at the head of the module of that name. A table begins with a new object, and what a call makes
//! of it stays for the rows below.
#![tactic(auto)]

mod bounds;
mod ghost_steps;
mod locks;
mod pay_steps;
mod pays;
mod sessions;
mod subjects;
mod waits;

use case_text::print_cases;
use std::mem::forget;
use subjects::Subjects;

fn main(rt: HostRuntime) -> anyhow::Result<()> {
    let mut subjects = Subjects::new(rt.alloc());
    let told = print_cases(&rt, &mut subjects);
    forget(subjects);
    told
}
