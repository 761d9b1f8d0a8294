//! Whole statements: with objects and places for names (`resolve`), and the tests of a resolved one (`check`), which are its
//! types, its shape rules, its limits, and the index that a join view needs.
#![tactic(auto)]

mod checking;
mod creating;
mod statements;

pub use checking::check;
pub use statements::resolve;
