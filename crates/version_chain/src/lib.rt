//! Versions of rows and of view rows by commit number, for readers that take no lock.
#![tactic(auto)]

mod balance;
mod chains;
mod change;
mod copying;
mod deltas;
pub mod law;
mod pool;
mod pruning;
mod rows;
mod search;
mod tree;

pub use chains::Chains;
pub use deltas::{Delta, DeltaChains};
pub use rows::{RowChains, Version};
