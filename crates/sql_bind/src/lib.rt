//! Statements bound to what a database defines: resolved, checked, and then with numbers for objects.
#![tactic(auto)]

mod binding;
mod creating;

pub use binding::bind;
