//! Acts with the records that they give to the journal.
//!
//! Each act of the core that changes what is stored gives the record that the log has of its effect (`specs/Giving`).
#![tactic(auto)]

mod append;
mod ending;
mod ghosting;
mod keeping;
mod latest;
mod undoing;

pub use append::{give, give_and_flush};
pub use ending::{commit, end, next_commit};
pub use ghosting::make_ghost;
pub use keeping::{pay, put};
pub use latest::give_latest;
pub use undoing::undo_one;
