//! Binds the statements of its input, and prints how many rows each table has and which of them become something else.
//!
//! A line `+ DEFINITIONS`, with `;` between them, adds to the table's catalog, which a table without such a line takes
//! from the one before. A row is a statement and what it is bound to, as `answers` writes it, or its refusal by code and
//! values; in a table whose name begins with `plans: ` it asks for a plan (`plans`), and in one whose name begins with
//! `intervals: ` for the interval of a part of a plan (`intervals`).
#![tactic(auto)]

mod answers;
mod bindings;
mod intervals;
mod plans;
mod short_forms;

use bindings::Bindings;
use case_text::print_cases;

fn main(rt: HostRuntime) -> anyhow::Result<()> {
    let mut bindings = Bindings::new(rt.alloc());
    let told = print_cases(&rt, &mut bindings);
    bindings.forgotten();
    told
}
