//! What is kept of an entry.
use iv_types::Bytes;
use spare_map::{Blank, SpareMap};
use std::alloc::Global;

/// What is kept of an entry of a stored page under its index number and its key.
#[derive(Drop)]
pub struct StoredEntry {
    /// Where its page begins, a byte of the device.
    pub page: u64,
    /// Its value, as it stands in the page.
    pub value: Bytes,
}

impl Blank for StoredEntry {
    fn blank(alloc: Global) -> Self {
        StoredEntry {
            page: 0,
            value: Bytes::new(alloc),
        }
    }
}

/// Entries of stored pages under their index numbers and their keys.
pub type EntryMap = SpareMap<StoredEntry>;
