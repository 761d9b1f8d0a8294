//! Sorted maps over one fixed array of pages, of which some are stored on a disk.
//!
//! All entries of all indexes stand in leaves, pages of entries, and one directory has the leaves in the order of their
//! indexes and first keys. A search is a binary search over the leaves and then one in a leaf. An entry that fits goes
//! into its leaf; else the leaf is cut at its place, and it gets a leaf of its own. After each change neighbours of one
//! index that fit into one page are joined. So two neighbours never fit together, which bounds the number of leaves by
//! the bytes of their entries: below the limit a page is never lacking. This is a B-tree (R. Bayer and E. McCreight,
//! Organization and maintenance of large ordered indices, 1972) whose inner pages are one directory.
#![tactic(auto)]

mod calls;
mod changing;
mod edits;
mod finding;
mod law;
mod leaves;
mod marking;
mod page_maps;

pub use calls::{MapAnswer, MapCall};
pub use law::{page_bound, play_all, play_both};
pub use page_maps::PageMaps;
