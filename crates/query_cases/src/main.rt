//! Evaluates expressions, groups and views of its input, does its statements step by step, and prints how many rows each table
//! has and which of them give something else.
//!
//! The first word of a table's name says what its rows ask for: `values` and `truths` (`evaluating`), `groups`
//! (`grouping`), `views` and `kept` (`views`), `selects` and `snapshots` (`selecting`), or `changes` (`changing`). A line
//! `+ ROWS` gives tables of values and truths a row of each relation; of other tables a line `+ DEFINITION` adds to the
//! catalog. A table without such a line takes what the one before has.
#![tactic(auto)]

mod changing;
mod evaluating;
mod grouping;
mod queries;
mod selecting;
mod turns;
mod views;
mod writing;

use case_text::print_cases;
use queries::Queries;

fn main(rt: HostRuntime) -> anyhow::Result<()> {
    let mut queries = Queries::new(rt.alloc());
    let told = print_cases(&rt, &mut queries);
    queries.forgotten();
    told
}
