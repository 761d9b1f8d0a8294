//! Acts that keep the core small: Clean, with the record that it gives to the journal, and Prune.
#![tactic(auto)]

mod cleaning;
mod pruning;

pub use cleaning::clean;
pub use pruning::prune;
