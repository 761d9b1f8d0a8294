//! Rows in the order of some of their columns.
#![tactic(auto)]

mod key_order;

pub use key_order::{in_key_order, sorted_by};
