//! The effects of steps on the core: what each makes of what it stores, of its open transactions and of their locks.
//!
//! Each call's contract says that the core holds what the machine's effect leaves.
#![tactic(auto)]

mod ghosting;
mod noting;
mod paying;
mod reserving;
mod taking;
mod undoing;
mod writing;

pub use ghosting::{has_row, make_row, mark_ghosted};
pub use noting::note;
pub use paying::pay_first;
pub use reserving::reserve_locks;
pub use taking::take;
pub use undoing::undo;
pub use writing::{Writing, write};
