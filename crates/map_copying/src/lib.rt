//! Sorted maps copied into others: all entries of all indexes, one index after another.
#![tactic(auto)]

mod copying;
mod gathering;

pub use copying::copy_maps;
