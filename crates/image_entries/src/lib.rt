//! The entries of the stored pages of an image that was found: all of them in one map, and the rules of the image that
//! they have to keep.
//!
//! Nothing is written.
#![tactic(auto)]

mod fault;
mod gather;
mod keys;
mod parts;
mod read;
mod stored;
mod twice;

pub use fault::DEFINITIONS_READ;
pub use gather::gather_entries;
pub use parts::Part;
pub use read::read_parts;
pub use stored::{EntryMap, StoredEntry};
