//! The texts of definitions as they are stored: in parts of at most 1,024 bytes under index 0, each under its object's number and
//! its own.
//!
//! The parts are made first (`parts.rt`), without a change. Once there is room for them, they are put in (`storing.rt`).
#![tactic(auto)]

mod parts;
mod storing;

pub use parts::parts_of;
pub use storing::{put_parts, reserve_parts};
