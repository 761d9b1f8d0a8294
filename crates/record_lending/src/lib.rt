//! The log's records of what transactions do, lent from what an engine keeps of it, and how many bytes they take. No call
//! takes memory.
#![tactic(auto)]

mod laws;
mod lending;
mod sizes;

pub use laws::short_law;
pub use lending::{
    abort_of, clean_of, commit_of, definition_of, delta_of, ghost_of, number_of, step_of, undo_of,
    write_of,
};
pub use sizes::{
    delta_bytes, ghost_bytes, group_bytes, owed_bytes, pay_bytes, record_bytes, write_bytes,
};
