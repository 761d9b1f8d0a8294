//! Does steps on cores over maps in memory, and prints how many rows each table has and which of them are answered otherwise.
//!
//! A table is a run on a new core, and each row a step, or more with `; ` between them, and what it is answered (`runs`).
#![tactic(auto)]

mod answers;
mod asking;
mod doing;
mod keys;
mod objects;
mod runs;
mod steps;

use case_text::print_cases;
use runs::Runs;

fn main(rt: HostRuntime) -> anyhow::Result<()> {
    let mut runs = Runs::new(rt.alloc());
    print_cases(&rt, &mut runs)
}
