//! Runs calls of what tables and views are stored with, and prints how many rows each table has and which of them answer
//! something else.
//!
//! The name of a table begins with what its rows call: `maps`, `places`, `tables`, `deltas`, `versions` or `wants`, and a
//! colon. What each of them is given and asked stands at the head of the module of that name. A table begins with a new
//! object, and what a call makes of it stays for the rows below.
#![tactic(auto)]

mod catalogs;
mod changed_rows;
mod changes;
mod deltas;
mod fills;
mod maps;
mod places;
mod subjects;
mod table_facts;
mod tables;
mod versions;
mod views;
mod wants;

use case_text::print_cases;
use std::mem::forget;
use subjects::Subjects;

fn main(rt: HostRuntime) -> anyhow::Result<()> {
    let mut subjects = Subjects::new(rt.alloc());
    let told = print_cases(&rt, &mut subjects);
    forget(subjects);
    told
}
