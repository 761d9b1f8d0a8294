//! Sorted maps in memory without a limit, each a balanced tree: a look-up or a change takes a time that grows with the
//! logarithm of the number of entries.
#![tactic(auto)]

mod entry_tree;
mod tree_maps;

pub use tree_maps::TreeMaps;
