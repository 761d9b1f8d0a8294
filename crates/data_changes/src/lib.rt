//! The changes of what an engine stores: rows put and taken back, deltas paid and taken back, ghosts made and removed.
//!
//! Each call tells its effect on the contents of the store, as the machine has it (`specs/Effects`).
#![tactic(auto)]

mod ghosts;
mod paying;
mod putting;

pub use ghosts::{make_ghost, remove_ghost, settle};
pub use paying::{pay, reserve_pay, take_back_pay};
pub use putting::{put, take_back_put};
