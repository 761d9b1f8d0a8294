//! The entries of an image as rows of its tables and views: rule 12.
//!
//! Nothing is written, and the disk is not asked.
#![tactic(auto)]

mod check;
mod entry;
mod numbers;

pub use check::check_rows;
