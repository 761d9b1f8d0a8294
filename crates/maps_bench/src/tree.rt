//! The standard library's `BTreeMap`.
use crate::subject::{Subject, VALUE};
use std::alloc::Global;
use std::collections::BTreeMap;

/// Entries in a `BTreeMap`.
#[derive(Drop)]
pub struct Tree {
    entries: BTreeMap<Vec<u8>, Vec<u8>>,
}

impl Tree {
    pub fn new(alloc: Global) -> Tree {
        Tree {
            entries: BTreeMap::new(alloc),
        }
    }
}

impl Subject for Tree {
    fn put(&mut self, alloc: Global, key: &[u8]) -> anyhow::Result<()> {
        if self.entries.contains_key(key) {
            return Ok(());
        }
        let value = Vec::from_slice(alloc, &VALUE)?;
        self.entries.insert(Vec::from_slice(alloc, key)?, value)?;
        Ok(())
    }

    fn has(&self, key: &[u8]) -> bool {
        self.entries.contains_key(key)
    }

    fn walk(&self) -> u32 {
        let mut count: u32 = 0;
        for _ in self.entries.iter() {
            count = count.wrapping_add(1);
        }
        count
    }

    fn take(&mut self, key: &[u8]) {
        self.entries.remove(key);
    }
}
