//! The stored rows of views beside their views, evaluated afresh: the sums of rule 14, and the first view row that is wrong.
//!
//! `check.rt` goes over all views. `fresh.rt` evaluates one on the rows of its tables, `compare.rt` walks its stored rows beside these,
//! and `numbers.rt` reads and compares the numbers of a row. Nothing is changed.
#![tactic(auto)]

mod check;
mod compare;
mod fresh;
mod numbers;
mod wrong;

pub use check::check_views;
pub use wrong::{ViewsFound, WrongRow};
