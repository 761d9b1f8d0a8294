//! How transactions of the core begin and end: Begin, End, Commit and Cancel.
//!
//! Each act's contract says that its answer is one of the machine's, and that the core then holds what its effects leave.
#![tactic(auto)]

mod beginning;
mod cancelling;
mod ending;
mod entering;

pub use beginning::begin;
pub use cancelling::cancel;
pub use ending::{commit, end};
